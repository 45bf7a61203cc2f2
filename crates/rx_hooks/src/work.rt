// The work of several hooks.
ghost use Rattle.std.specs.Prelude.{◌≡◌, [], ◌∷◌};
ghost use Rattle.rx_hooks.specs.Hooks.{work_among};

use rx_queue::Work;

/// The work of two hooks: new if one of them is new, else owed if one is owed.
pub fn first_work(a: Work, b: Work) -> Work
    ensures { result ≡ work_among (a ∷ b ∷ []) }
{
    match (a, b) {
        (Work::New, _) | (_, Work::New) => Work::New,
        (Work::Owed, _) | (_, Work::Owed) => Work::Owed,
        (Work::Nothing, Work::Nothing) => Work::Nothing,
    }
}
