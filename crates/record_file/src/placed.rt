use examination::ExamFault;

// An examination's fault, and where in the file the record stands that it is about.
#[derive(Clone, Copy, PartialEq, Eq, Debug)]
pub struct Placed {
    pub offset: usize,
    pub fault: ExamFault,
}
