// A part that is read already, beside what is read behind it.
ghost use Rattle.std.specs.Prelude.{◌≡◌, IfOk, IfErr, Ok, Err};

use crate::fault::Fault;
use rx_lex::Rest;

/// A part, with the tokens that are left if something stands behind it.
pub fn closed<'a, T: Drop>(part: T, rest: Result<Rest<'a>, Fault>) -> Result<(T, Rest<'a>), Fault>
    ensures ok { IfOk rest.entry (λ r. result ≡ Ok (part, r)) }
    ensures err { IfErr rest.entry (λ e. result ≡ Err e) }
{
    match rest {
        Ok(rest) => Ok((part, rest)),
        Err(fault) => Err(fault),
    }
}

/// A part and the one behind it, with the tokens that are left.
pub fn beside<'a, T: Drop, U: Drop>(
    first: T,
    second: Result<(U, Rest<'a>), Fault>,
) -> Result<(T, U, Rest<'a>), Fault>
    ensures ok { IfOk second.entry (λ x. result ≡ Ok (first, x.0, x.1)) }
    ensures err { IfErr second.entry (λ e. result ≡ Err e) }
{
    match second {
        Ok((second, rest)) => Ok((first, second, rest)),
        Err(fault) => Err(fault),
    }
}
