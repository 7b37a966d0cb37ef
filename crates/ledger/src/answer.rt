use crate::culm::Culm;
use crate::member::Member;

// Culms on the rack, held and standing, standing members, and open tickets.
#[derive(Clone, Copy, PartialEq, Eq, Debug)]
pub struct Counts {
    pub rack: usize,
    pub held: usize,
    pub standing: usize,
    pub members: usize,
    pub tickets: usize,
}

// What an accepted call is answered. A call is answered an `Answer` or a `BookFault`.
#[derive(Clone, Copy)]
pub enum Answer {
    Done,
    OneCulm(Culm),
    OneMember(Member),
    AllCounts(Counts),
}
