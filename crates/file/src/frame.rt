// What a line of a sheet file says.
ghost use Rattle.std.specs.Prelude.{◌≡◌, ◌+◌, ◌*◌};
ghost use Rattle.std.specs.Cmp.Rules.{comparing};
ghost use Rattle.std.proofs.Common.{rules};
ghost use Rattle.file.specs.Frames.{decoded, three};

use common::Exact;

// The first byte of a frame is its kind.
pub(crate) mod kind {
    pub const TASK: u8 = 1;

    pub const LINK: u8 = 2;

    pub const HARD: u8 = 3;

    pub const RAMP: u8 = 4;

    pub const SOFT: u8 = 5;

    pub const STEP: u8 = 6;

    pub const WEIGHT: u8 = 7;
}

// A frame is a kind, the fields of its kind, and a last byte that makes the sum of all bytes 0 modulo 256.
#[derive(Clone, Copy, Debug, PartialEq, Eq)]
pub enum Frame {
    // A plain task with this minimum and this maximum.
    Task {
        min: u16,
        max: u16,
    },
    // Task a stands before task b.
    Link {
        a: u8,
        b: u8,
    },
    // Task t is hard, to end by the deadline.
    Hard {
        t: u8,
        deadline: u32,
    },
    // The ramp of task t.
    Ramp {
        t: u8,
        peak: u32,
        knee: u32,
        foot: u32,
    },
    // Task t is soft.
    Soft {
        t: u8,
    },
    // A further step of task t.
    Step {
        t: u8,
        until: u32,
        worth: u32,
    },
    // The weight of task t.
    Weight {
        t: u8,
        weight: u8,
    },
}

impl Frame {
    // How many bytes the longest frame has, a ramp's.
    pub(crate) const LONGEST: usize = 12;

    // The frame that has these bytes, whatever the last one is.
    #[tactic(auto, unfolding(crate::specs::Frames::decoded))]
    pub(crate) fn of(bytes: &[u8]) -> Option<Frame>
        ensures { result ≡ decoded bytes.now }
    {
        Some(match *bytes {
            [kind::TASK, a, b, c, d, _] => Frame::Task {
                min: u16::from_be_bytes([a, b]),
                max: u16::from_be_bytes([c, d]),
            },
            [kind::LINK, a, b, _] => Frame::Link { a, b },
            [kind::HARD, t, a, b, c, _] => Frame::Hard {
                t,
                deadline: of_three(a, b, c),
            },
            [kind::RAMP, t, a, b, c, d, e, f, g, h, i, _] => Frame::Ramp {
                t,
                peak: of_three(a, b, c),
                knee: of_three(d, e, f),
                foot: of_three(g, h, i),
            },
            [kind::SOFT, t, _] => Frame::Soft { t },
            [kind::STEP, t, a, b, c, d, e, f, _] => Frame::Step {
                t,
                until: of_three(a, b, c),
                worth: of_three(d, e, f),
            },
            [kind::WEIGHT, t, weight, _] => Frame::Weight { t, weight },
            _ => return None,
        })
    }
}

// A number below 2^24 in three bytes, the high one first.
pub(crate) fn three(n: u32) -> [u8; 3]
    ensures { result ≡ three n }
{
    let [_, a, b, c] = n.to_be_bytes();
    [a, b, c]
}

// The number that three such bytes stand for.
fn of_three(a: u8, b: u8, c: u8) -> u32
    ensures { result ≡ 65536 * a + 256 * b + c }
{
    u32::from_be_bytes([0, a, b, c])
}

impl Exact for Frame {
    ghost exact = { Prim.search (comparing, rules) };
}
