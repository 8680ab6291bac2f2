// Why a picture is not taken, in words.
ghost use Rattle.std.specs.Prelude.{◌≡◌};
ghost use Rattle.app_send.specs.declared.faults.Fault.TheVariants.{Picture};

use app_pictures::ppm::Unfit;

// A picture that is not taken, or two whose sizes differ.
#[derive(Clone, Copy, Debug, PartialEq, Eq)]
pub enum Fault {
    Picture(Unfit),
    Differ,
}

impl From<Unfit> for Fault {
    ghost from_gives = { λ unfit fault. fault ≡ Picture unfit };

    fn from(unfit: Unfit) -> Fault {
        Fault::Picture(unfit)
    }
}

fn say_unfit(to: i32, name: &[u8], unfit: Unfit) {
    match unfit {
        Unfit::Kind => app_text::lines::say_why(
            to,
            name,
            b"not a binary PPM: it does not begin with P6",
        ),
        Unfit::Unread => app_text::lines::say_why(to, name, b"the PPM's head cannot be read"),
        Unfit::Largest => app_text::lines::say_why(to, name, b"the PPM's largest value is not 255"),
        Unfit::Size => app_text::lines::say_why(
            to,
            name,
            b"the size is not allowed: width 1 to 4096, height 1 to 2048",
        ),
        Unfit::Pixels => app_text::lines::say_why(
            to,
            name,
            b"the picture is too large: at most 1048576 pixels are taken",
        ),
        Unfit::Few => app_text::lines::say_why(to, name, b"the picture has too few bytes"),
        Unfit::Many => app_text::lines::say_why(to, name, b"the picture has too many bytes"),
    }
}

// The line, which is a program's last.
pub fn say(to: i32, name: &[u8], fault: Fault)
    ensures { Unit }
{
    match fault {
        Fault::Picture(why) => say_unfit(to, name, why),
        Fault::Differ => app_text::lines::say_why(to, name, b"the two pictures differ in size"),
    }
}
