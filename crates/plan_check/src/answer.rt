// What the check of a plan tells.
use file_refusals::Refusal;

// The check's verdict, and how many finds it made.
#[derive(Clone, Copy)]
pub struct Report {
    pub verdict: Result<(), Refusal>,
    pub finds: u64,
}
