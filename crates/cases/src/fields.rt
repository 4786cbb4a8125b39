// Changing one field of the tables by its number. A value is cut to the field's width.
use level::Level;
use policy::Tables;

// The low 8 bits.
fn low8(n: u64) -> u8 {
    let [low, ..] = n.to_le_bytes();
    low
}

// The low 16 bits.
fn low16(n: u64) -> u16 {
    let [low, high, ..] = n.to_le_bytes();
    u16::from_le_bytes([low, high])
}

// Changes one field: the mask (0), a firm's mark (1) or class, a person's mark (3) or level, a folder's mark (5), firm, kind, level or the
// mark of a public one (12), a role's mark (9) or rights, or the steps that a step enables (11).
pub fn change(t: &mut Tables, which: u8, index: usize, value: u64) {
    match which {
        0 => t.mask = low8(value),
        1 => t.firms[index % 64].declared = value != 0,
        2 => t.firms[index % 64].class = low8(value),
        3 => t.persons[index % 64].declared = value != 0,
        4 => t.persons[index % 64].level = Level(low16(value)),
        5 => t.folders[index % 128].declared = value != 0,
        6 => t.folders[index % 128].firm = low8(value),
        7 => t.folders[index % 128].kind = low8(value),
        8 => t.folders[index % 128].level = Level(low16(value)),
        9 => t.roles[index % 32].declared = value != 0,
        10 => t.roles[index % 32].rights = value,
        11 => t.steps[index % 16] = low16(value),
        12 => t.folders[index % 128].public = value != 0,
        _ => (),
    }
}
