// The worked hours of docs/RULES.md, "Worked figures".
#[derive(Clone, Copy)]
pub enum WorkedHour {
    // positions 1,000 and -1,000, readings 900 and -1,050
    Traded,
    // the same with the second reading corrected to -1,000
    Corrected,
    // positions and readings 0; party 1 delivers 100 kWh at 2,000
    Unmetered,
}
