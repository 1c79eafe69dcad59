// What a check of a certificate answers.

/// Why a line of a certificate is bad: it lacks its form, or it breaks the rule of this name.
#[derive(Clone, Copy, Debug, PartialEq, Eq)]
pub enum Reason {
    /// It isn't written as a line of its kind, or no line stands or may stand here.
    Form,
    /// There are none or more than 16 polygons, or they are no page.
    Page,
    /// There are more than 32 curves, 64 slides, 256 twists, 20,000 fingers or 20,000 generators; or after a single twist of this entry
    /// the words have more than 4,000 letters together.
    Limit,
    /// A curve before has the name, or the path is no curve on the page.
    Curve,
    /// The slide is refused where it comes.
    Slide,
    /// No curve has the name, or the power is 0 or not from -64 to 64.
    Twist,
    /// The names aren't those of the page's seams, or the arcs not those of the sides after all slides.
    Basis,
    /// The strand leaves by other sides than the word that the twist word makes of its arc.
    Word,
    /// The strands are no embedded drawing.
    Drawing,
    /// The finger isn't legal in the drawing that the lines before it leave.
    Finger,
    /// The strand has other exits after all fingers.
    Final,
    /// The drawing after all fingers isn't nice.
    Nice,
    /// The last drawing has another number of generators.
    Generators,
    /// The number isn't that of the last generator, or the points aren't the contact points.
    Contact,
    /// There are more pivots than generators; or column or row is no generator's, the column isn't above that of the pivot before, or
    /// its reduced column hasn't the row.
    Pivot,
    /// It isn't the number of pivots, or some column doesn't reduce to nothing by them.
    Rank,
    /// It isn't the number of generators less twice the rank.
    Homology,
    /// The numbers don't ascend below the number of generators, or those of `zero` are no chain, or those of `nonzero` no functional.
    Verdict,
}

/// What a valid certificate says of the contact class.
#[derive(Clone, Copy, Debug, PartialEq, Eq)]
pub enum Answer {
    /// The contact generator is the sum of some columns.
    Zero,
    /// A functional that is even on each column holds the contact generator.
    Nonzero,
}

/// The answer to a text.
#[derive(Clone, Copy, Debug, PartialEq, Eq)]
pub enum Checked {
    /// The text is a certificate of which each line keeps its rules.
    Valid(Answer),
    /// The first line that breaks a rule, counted from 1, and the first such rule of it.
    Bad { line: u32, reason: Reason },
}
