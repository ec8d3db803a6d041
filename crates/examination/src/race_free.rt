use crate::order::Examination;

// An examination that was closed with no data race: a plain number, which only closing can make.
#[derive(Drop)]
pub struct RaceFree {
    pub(crate) admitted: u16,
}

impl Examination for RaceFree {
    ghost size = { λ e. e.admitted };

    fn admitted(&self) -> u16 {
        self.admitted
    }
}
