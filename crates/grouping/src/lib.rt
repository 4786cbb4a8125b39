// Sets of persons, joined by groups of folders: for each folder one word of all persons who did something on it, turned from the words that
// a history has for each person (`turning`, `words`), and the words of the folders of one firm or one kind joined (`groups`).
#![tactic(auto)]

pub mod groups;
pub mod turning;
pub mod words;
