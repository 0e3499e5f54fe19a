// A cell: its value, and how many more times it can be written. It is neither `Debug` nor compared, since its value may be the owner's secret.
#[derive(Clone, Copy, Default)]
pub struct Cell {
    pub value: [u8; 20],
    pub left: u16,
}
