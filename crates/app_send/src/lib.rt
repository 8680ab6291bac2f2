// What `send` writes, made in lent memory from what it read: the headers and the frame of a picture, and of two pictures of one size the short frame of the second
// behind them (02, request Eleven). specs/Stream says it as an equation over the bytes of the pictures. No customer links it.
#![tactic(auto)]

ghost use Rattle.std.specs.Prelude.{◌≡◌, ◌+◌, ◌-◌, ◌≤◌, ◌<◌, length};
ghost use Rattle.short_write.specs.Answer.{short_count, WroteShort};
ghost use Rattle.app_pictures.specs.Ppm.{picture_of};
ghost use Rattle.plan.specs.declared.check.PlanRefusal.TheVariants.{Common};
ghost use Rattle.app_send.specs.declared.faults.Fault.TheVariants.{Picture};
ghost use Rattle.app_send.specs.declared.Unmade.TheVariants.{Faulty, Refused};
ghost use Rattle.app_send.specs.Stream.{frame_fault, frame_bytes, stream_fault, stream_of, Sent, Behind, made_behind, PictureSent};

pub mod both;
pub mod faults;
pub mod pair;

use crate::faults::Fault;
use app_pictures::ppm::Unfit;
use plan::check::PlanRefusal;
use settings::Settings;
use wire::Refusal;

// What is to be made of a picture's pixels: by which settings, with which frame index, in which size.
#[derive(Clone, Copy)]
pub struct Task {
    pub settings: Settings,
    pub index: u32,
    pub width: usize,
    pub height: usize,
}

// Why no stream is made: for what was to be sent, or because a writer refuses.
#[derive(Clone, Copy, Debug, PartialEq, Eq)]
pub enum Unmade {
    Faulty(Fault),
    Refused(PlanRefusal),
}

impl From<Fault> for Unmade {
    ghost from_gives = { λ fault why. why ≡ Faulty fault };

    fn from(fault: Fault) -> Unmade {
        Unmade::Faulty(fault)
    }
}

impl From<Unfit> for Unmade {
    ghost from_gives = { λ unfit why. why ≡ Faulty (Picture unfit) };

    fn from(unfit: Unfit) -> Unmade {
        Unmade::Faulty(Fault::Picture(unfit))
    }
}

impl From<PlanRefusal> for Unmade {
    ghost from_gives = { λ refusal why. why ≡ Refused refusal };

    fn from(refusal: PlanRefusal) -> Unmade {
        Unmade::Refused(refusal)
    }
}

impl From<Refusal> for Unmade {
    ghost from_gives = { λ refusal why. why ≡ Refused (Common refusal) };

    fn from(refusal: Refusal) -> Unmade {
        Unmade::Refused(PlanRefusal::Common(refusal))
    }
}

// The frame. What it is refused by is one of the short frame's refusals too.
fn frame_into(t: Task, pixels: &[u8], out: &mut [u8]) -> Result<usize, PlanRefusal>
    ensures { WroteShort (frame_fault t pixels.now (length out.old)) (frame_bytes t pixels.now) out.old out.new result }
{
    let mut list = [0i32; 4096];
    let mut scratch = [0i32; 4096];
    Ok(frame_send::write_frame_sets(
        t.width,
        t.height,
        t.settings.mode,
        t.settings.quants,
        t.index,
        pixels,
        &mut list,
        &mut scratch,
        out,
    )?)
}

// The frame behind what stands in the output.
pub fn frame_behind(t: Task, pixels: &[u8], at: usize, out: &mut [u8]) -> Result<usize, PlanRefusal>
    requires { at ≤ length out.old }
    ensures { Behind (frame_fault t pixels.now (length out.old - at)) (frame_bytes t pixels.now) at out.old out.new result }
{
    let e = out.len();
    frame_into(t, pixels, &mut out[at..e])
}

// How many bytes of the output are a stream, where a writer behind a place has ended it.
pub fn after(at: usize, w: Result<usize, PlanRefusal>) -> Result<usize, Unmade>
    requires { at + short_count w < 18446744073709551616 }
    ensures { result ≡ made_behind at w }
{
    Ok(at + w?)
}

// Headers and frame, one behind the other.
pub fn make(t: Task, pixels: &[u8], out: &mut [u8]) -> Result<usize, Unmade>
    ensures { Sent 0 (stream_fault t pixels.now (length out.old)) (stream_of t pixels.now) out.new result }
{
    headers::write_headers(t.width, t.height, t.settings.mode, out)?;
    after(47, frame_behind(t, pixels, 47, out))
}

// A picture as a file has it.
pub fn picture(s: Settings, index: u32, data: &[u8], out: &mut [u8]) -> Result<usize, Unmade>
    ensures { PictureSent s index «data».now (length out.old) (picture_of «data».now) out.new result }
{
    let head = app_pictures::ppm::read_picture(data)?;
    let t = Task {
        settings: s,
        index: index,
        width: head.width,
        height: head.height,
    };
    make(t, app_text::loading::rest(data, head.at), out)
}
