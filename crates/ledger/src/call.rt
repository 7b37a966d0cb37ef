use quantities::class::RawClass;
use quantities::duration::Duration;
use quantities::forces::RawForces;
use quantities::grade::RawGrade;
use quantities::readings::RawReadings;

// Numbers for a new ticket, not yet checked.
#[derive(Clone, Copy)]
pub struct Opening {
    pub member: u32,
    pub length: u32,
    pub class: u32,
    pub duration: Duration,
    pub forces: RawForces,
}

// A call by plain numbers that nobody has checked.
#[derive(Clone, Copy)]
pub enum Call {
    DefineGrade {
        grade: u32,
        values: RawGrade,
    },
    DefineClass {
        class: u32,
        factors: RawClass,
    },
    AddCulm {
        culm: u32,
        grade: u32,
        readings: RawReadings,
    },
    ScrapCulm {
        culm: u32,
    },
    Open(Opening),
    CheckOut {
        member: u32,
    },
    CheckIn {
        member: u32,
    },
    Hold {
        member: u32,
        culm: u32,
    },
    Free {
        member: u32,
        culm: u32,
    },
    Judge {
        member: u32,
    },
    Set {
        member: u32,
    },
    DropTicket {
        member: u32,
    },
    Strike {
        member: u32,
    },
    Load {
        member: u32,
        duration: Duration,
        forces: RawForces,
    },
    JudgeWithout {
        member: u32,
        culm: u32,
    },
    LookCulm {
        culm: u32,
    },
    LookMember {
        member: u32,
    },
    LookCounts,
}
