// What a refused call adds to its number: the layer that refused, or a place in the file.
#[derive(Clone, Copy, PartialEq, Eq, Debug)]
pub enum Adds {
    KeeperLayer,
    ExaminationLayer,
    Offset(usize),
}

// How a refused call is reported. The number is what users are shown; in the code each refusal is a fault's variant.
#[derive(Clone, Copy, PartialEq, Eq, Debug)]
pub struct Refusal {
    pub number: u8,
    pub adds: Adds,
}
