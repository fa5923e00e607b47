//! The rule table: kinds with their coefficients, their roles, their order and their margins.

ghost use Rattle.std.specs.Prelude.{◌≡◌, ◌<◌, ◌≤◌, length, pos, slice_index_or};
ghost use Rattle.rf_terms.specs.Kinds.{AllSmall, IsSmall};
ghost use Rattle.rf_terms.specs.Kinds as table;
ghost use Rattle.rf_terms.specs.declared.kind.TheConstants.{MARGINS};

/// A kind of rule. Its roles are taken by distinct carriers, and its form is the sum of their frequencies, each times
/// the coefficient of its role. The last role of every kind but `Spacing` is the victim; the others are its sources.
#[derive(Clone, Copy, PartialEq, Eq)]
pub enum Kind {
    /// Two carriers keep their spacing.
    Spacing,
    /// The product `2a-b` keeps away from a third carrier.
    T3Two,
    /// The product `a+b-c` keeps away from a fourth carrier.
    T3Three,
    /// The product `3a-2b` keeps away from a third carrier.
    T5Two,
    /// The product `3a-b-c` keeps away from a fourth carrier.
    T5ThreeA,
    /// The product `2a+b-2c` keeps away from a fourth carrier.
    T5ThreeB,
    /// The product `4a-3b` keeps away from a third carrier.
    T7Two,
}

/// Which number of a profile is a kind's margin.
#[derive(Clone, Copy, PartialEq, Eq)]
pub enum Margin {
    /// The channel spacing.
    Spacing,
    /// The margin of products of order 3 of two carriers.
    M2t3,
    /// The margin of products of order 3 of three carriers.
    M3t3,
    /// The margin of products of order 5 of two carriers.
    M2t5,
    /// The margin of products of order 5 of three carriers.
    M3t5,
    /// The margin of products of order 7 of two carriers.
    M2t7,
}

/// How many margins a profile has beside its spacing.
pub const MARGINS: usize = 5;

/// The kinds, in the order of the rule table.
pub fn kinds() -> &'static [Kind]
    ensures { result.now ≡ table.kinds }
{
    &[
        Kind::Spacing,
        Kind::T3Two,
        Kind::T3Three,
        Kind::T5Two,
        Kind::T5ThreeA,
        Kind::T5ThreeB,
        Kind::T7Two,
    ]
}

/// The kinds with so many roles, in the order of the rule table.
pub fn kinds_with(roles: usize) -> &'static [Kind]
    ensures { result.now ≡ table.kinds_with roles }
{
    match roles {
        2 => &[Kind::Spacing],
        3 => &[Kind::T3Two, Kind::T5Two, Kind::T7Two],
        4 => &[Kind::T3Three, Kind::T5ThreeA, Kind::T5ThreeB],
        _ => &[],
    }
}

/// The coefficients of a kind's form, in the order of its roles.
pub fn coefficients(kind: Kind) -> &'static [i64]
    ensures value { result.now ≡ table.coefficients_of kind }
    ensures small { AllSmall result.now }
{
    match kind {
        Kind::Spacing => &[1, -1],
        Kind::T3Two => &[2, -1, -1],
        Kind::T3Three => &[1, 1, -1, -1],
        Kind::T5Two => &[3, -2, -1],
        Kind::T5ThreeA => &[3, -1, -1, -1],
        Kind::T5ThreeB => &[2, 1, -2, -1],
        Kind::T7Two => &[4, -3, -1],
    }
}

/// The number of a kind's roles: 2 to 4.
pub fn roles(kind: Kind) -> usize
    ensures value { result ≡ table.roles_of kind }
    ensures bounds { (2 ≤ result) × (result ≤ 4) }
{
    coefficients(kind).len()
}

/// Whether a kind's last role is a victim.
pub fn has_victim(kind: Kind) -> bool
    ensures { result ≡ table.has_victim kind }
{
    roles(kind) > 2
}

/// The coefficient of one role, which is below `roles(kind)`.
pub fn coefficient(kind: Kind, role: usize) -> i64
    requires { role < table.roles_of kind }
    ensures value { result ≡ slice_index_or (table.coefficients_of kind) role (pos 0) }
    ensures small { IsSmall result }
{
    coefficients(kind)[role]
}

/// The two roles of which the first carrier stands before the second in the show. None where any order counts.
pub fn order(kind: Kind) -> Option<(usize, usize)>
    ensures { result ≡ table.order_of kind }
{
    match kind {
        Kind::Spacing | Kind::T3Three => Some((0, 1)),
        Kind::T5ThreeA => Some((1, 2)),
        Kind::T3Two | Kind::T5Two | Kind::T5ThreeB | Kind::T7Two => None,
    }
}

/// Which number of a profile is the kind's margin.
pub fn asks(kind: Kind) -> Margin
    ensures { result ≡ table.margin_of kind }
{
    match kind {
        Kind::Spacing => Margin::Spacing,
        Kind::T3Two => Margin::M2t3,
        Kind::T3Three => Margin::M3t3,
        Kind::T5Two => Margin::M2t5,
        Kind::T5ThreeA | Kind::T5ThreeB => Margin::M3t5,
        Kind::T7Two => Margin::M2t7,
    }
}

/// Where a margin stands among what a profile asks: its spacing, and then its margins.
pub fn place(margin: Margin) -> usize
    ensures value { result ≡ table.place_of margin }
    ensures within { result ≤ MARGINS }
{
    match margin {
        Margin::Spacing => 0,
        Margin::M2t3 => 1,
        Margin::M3t3 => 2,
        Margin::M2t5 => 3,
        Margin::M3t5 => 4,
        Margin::M2t7 => 5,
    }
}

/// How a kind is written in scripts, reports and logs.
pub fn text(kind: Kind) -> &'static str
    ensures { result.now ≡ table.text_of kind }
{
    match kind {
        Kind::Spacing => "spacing",
        Kind::T3Two => "2a-b",
        Kind::T3Three => "a+b-c",
        Kind::T5Two => "3a-2b",
        Kind::T5ThreeA => "3a-b-c",
        Kind::T5ThreeB => "2a+b-2c",
        Kind::T7Two => "4a-3b",
    }
}
