//! Words and what stands behind them, as most lines have it. A call of these is shorter to prove than a format string in its place.
ghost use Rattle.std.specs.Prelude.{◌++◌, codes, IfSome};
ghost use Rattle.std.specs.Fmt.{WritesOnOk};

use std::fmt;

/// Writes a word, which has its blank, and a value.
pub(crate) fn put_one<W: fmt::Write, X: fmt::Display>(
    f: &mut fmt::Formatter<W>,
    word: &str,
    x: &X,
) -> fmt::Result
    ensures { IfSome (X.output x.now) (λ first. WritesOnOk W.write_str_gives f.old result (word.now ++ first) f.new) }
{
    write!(f, "{word}{x}")
}

/// Writes a word, which has its blank, and two values.
pub(crate) fn put_two<W: fmt::Write, X: fmt::Display, Y: fmt::Display>(
    f: &mut fmt::Formatter<W>,
    word: &str,
    x: &X,
    y: &Y,
) -> fmt::Result
    ensures { IfSome (X.output x.now) (λ first. IfSome (Y.output y.now)
        (λ second. WritesOnOk W.write_str_gives f.old result (word.now ++ first ++ codes " " ++ second) f.new)) }
{
    write!(f, "{word}{x} {y}")
}

/// Writes a word, which has its blank, and three values.
pub(crate) fn put_three<W: fmt::Write, X: fmt::Display, Y: fmt::Display, Z: fmt::Display>(
    f: &mut fmt::Formatter<W>,
    word: &str,
    x: &X,
    y: &Y,
    z: &Z,
) -> fmt::Result
    ensures { IfSome (X.output x.now) (λ first. IfSome (Y.output y.now) (λ second. IfSome (Z.output z.now)
        (λ third. WritesOnOk W.write_str_gives f.old result (word.now ++ first ++ codes " " ++ second ++ codes " " ++ third) f.new))) }
{
    write!(f, "{word}{x} {y} {z}")
}
