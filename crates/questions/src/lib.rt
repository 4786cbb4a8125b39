// What is asked of a request: what the tables have of its parties (`asking`), what refuses it at once or what each rule is asked
// (`question`), and the answers of the rules once what they ask about is known (`known`). Nothing here reads a history.
#![tactic(auto)]

pub mod asking;
pub mod known;
pub mod question;
