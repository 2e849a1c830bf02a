// How many words an operation takes and how many it answers.
#[derive(Clone, Copy)]
pub struct Counts {
    pub inputs: usize,
    pub outputs: usize,
}
