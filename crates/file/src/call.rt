// The call that a frame makes.
ghost use Rattle.std.specs.Prelude.{◌≡◌};
ghost use Rattle.file.specs.Loads.{call_of};

use crate::frame::Frame;

#[derive(Clone, Copy)]
pub(crate) enum Call {
    OnSheet(sheet::Call),
    OnBook(book::Call),
}

impl Frame {
    pub(crate) fn call(self) -> Call
        ensures { result ≡ call_of self }
    {
        match self {
            Frame::Task { min, max } => Call::OnSheet(sheet::Call::Task(min.into(), max.into())),
            Frame::Link { a, b } => Call::OnSheet(sheet::Call::Link(a, b)),
            Frame::Hard { t, deadline } => Call::OnSheet(sheet::Call::Hard(t, deadline)),
            Frame::Ramp {
                t,
                peak,
                knee,
                foot,
            } => Call::OnBook(book::Call::Ramp(t, peak, knee, foot)),
            Frame::Soft { t } => Call::OnSheet(sheet::Call::Soft(t)),
            Frame::Step { t, until, worth } => Call::OnBook(book::Call::Step(t, until, worth)),
            Frame::Weight { t, weight } => Call::OnBook(book::Call::Weight(t, weight.into())),
        }
    }
}
