// Types that contracts and code share. What they mean is defined in specs/.
#![tactic(auto)]

ghost use Rattle.std.specs.Prelude.{◌≡◌};
ghost use Rattle.model.specs.Answers.{number};

// Why a call is refused, and by which number: specs/Answers.antt has both too.
#[derive(Clone, Copy, Debug, PartialEq, Eq)]
pub enum Fault {
    // the board's word count
    WordCount = 1,
    // a word of the trailer
    Trailer = 2,
    // any other reason not to be accepted
    Damaged = 3,
    // the file number
    FileNumber = 4,
    // an end past the greatest size; 5 never occurs
    End = 6,
    // too few free blocks
    FreeBlocks = 7,
    // a plan slice that is too short
    PlanLength = 8,
    // more pairs than the plan's words hold
    PairCount = 9,
    // an address off the board
    Address = 10,
}

impl From<Fault> for u64 {
    ghost from_gives = { λ fault n. n ≡ number fault };

    #[tactic(auto, unfolding(crate::specs::Answers::number))]
    fn from(fault: Fault) -> u64 {
        fault as u64
    }
}

// What a call answers: a number, or why it is refused.
pub type Answer = Result<u64, Fault>;

// N6 of document 02: where the walk to a byte ends, a block or none in a hole, and how many blocks it visited.
#[derive(Clone, Copy)]
pub struct VisitedEnd {
    pub end: Option<u64>,
    pub visited: u64,
}

// What a read or a write answers, and how many blocks the walks to its bytes visited.
#[derive(Clone, Copy)]
pub struct VisitedAnswer {
    pub answer: Answer,
    pub visited: u64,
}

// A file's inode: the address of the inode pointer that leads to it, the address of its root word, its root and its size.
#[derive(Clone, Copy)]
pub struct Inode {
    pub pointer: u64,
    pub at: u64,
    pub root: u64,
    pub size: u64,
}
