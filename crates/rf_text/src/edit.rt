//! How the lines of edits are read.

ghost use Rattle.std.specs.Prelude.{◌≡◌, codes};
ghost use Rattle.rf_text.specs.Commands as spec;

use crate::operand::{Operand, at_most_one, one, profile_numbers, three, two};
use crate::words::Words;
use rf_base::Name;
use rf_show::Edit;

/// The edit that a first word and the operands after it write.
pub(crate) fn edit_by(verb: &str, operands: Words<'_>) -> Option<Edit>
    ensures { result ≡ spec.edit_by verb.now operands.entry }
{
    match verb {
        "profile" => profile_by(operands),
        "range" => range_by(operands),
        "drop-profile" => one(operands).map(|name| Edit::DropProfile { name }),
        "zone" => one(operands).map(|name| Edit::AddZone { name }),
        "couple" => two(operands).map(|(a, b)| Edit::Couple { a, b }),
        "uncouple" => two(operands).map(|(a, b)| Edit::Uncouple { a, b }),
        "far" => two(operands).map(|(a, b)| Edit::Far { a, b }),
        "carrier" => carrier_by(operands),
        "remove" => one(operands).map(|name| Edit::Remove { name }),
        "time" => three(operands).map(|(name, from, to)| Edit::AddTime { name, from, to }),
        "always" => one(operands).map(|name| Edit::Always { name }),
        "set" => two(operands).map(|(name, khz)| Edit::SetAt { name, khz }),
        "clear" => one(operands).map(|name| Edit::Clear { name }),
        "lock" => one(operands).map(|name| Edit::Lock { name }),
        "unlock" => one(operands).map(|name| Edit::Unlock { name }),
        "ban" => ban_by(operands),
        "unban" => one(operands).map(|number| Edit::Unban { number }),
        "unscan" => one(operands).map(|number| Edit::Unscan { number }),
        _ => None,
    }
}

fn profile_by(mut operands: Words<'_>) -> Option<Edit>
    ensures { result ≡ spec.edit_by (codes "profile") operands.entry }
{
    let name = Name::read(operands.next()?)?;
    let numbers = profile_numbers(operands)?;
    Some(Edit::AddProfile { name, numbers })
}

fn range_by(mut operands: Words<'_>) -> Option<Edit>
    ensures { result ≡ spec.edit_by (codes "range") operands.entry }
{
    let name = Name::read(operands.next()?)?;
    let (from, to, step) = three(operands)?;
    Some(Edit::AddRange {
        name,
        from,
        to,
        step,
    })
}

fn carrier_by(operands: Words<'_>) -> Option<Edit>
    ensures { result ≡ spec.edit_by (codes "carrier") operands.entry }
{
    let (name, profile, zone) = three(operands)?;
    Some(Edit::AddCarrier {
        name,
        profile,
        zone,
    })
}

fn ban_by(mut operands: Words<'_>) -> Option<Edit>
    ensures { result ≡ spec.edit_by (codes "ban") operands.entry }
{
    let lo = u32::read(operands.next()?)?;
    let hi = u32::read(operands.next()?)?;
    let zone = at_most_one(operands)?;
    Some(Edit::AddBan { lo, hi, zone })
}
