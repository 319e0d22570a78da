//! A whole script.
ghost use Rattle.std.specs.Prelude.{◌≡◌, length};
ghost use Rattle.relay_script.specs.Script.{IsReadAs};
ghost use Rattle.relay_script.specs.Reading.{first_line, line_and_rest, script_in, IsTaken};

use crate::count::count_ends;
use crate::cut::cut_at;
use crate::line::{ScriptLine, line_in};
use std::marker::Model;

/// A text that is no script.
#[derive(Clone, Copy, Debug, PartialEq, Eq)]
pub struct ScriptFault {
    /// The number of the first line, from 1 on, that has none of the forms, or of the last one if it is not ended.
    pub line: u64,
}

/// A script, seen as the list of its lines that are still to come. It holds no copy of the text.
#[derive(Drop)]
pub struct Script<'a> {
    text: &'a [u8],
}

impl<'a> Model for Script<'a> {
    ghost use Rattle.std.specs.Prelude.{List};
    ghost use Rattle.relay_script.specs.declared.line.ScriptLine.{ScriptLine};
    ghost use Rattle.relay_script.specs.Script.{IsReadAs};
    ghost use Rattle.relay_script.specs.Reading.{lines_in, IsScript};

    ghost Value = { List ScriptLine };

    ghost view = { λ s. lines_in s.text.now };

    ghost invariant = { λ s. IsScript s.text.now };
}

// The first line of a text, and what stands behind it.
fn first_line(text: &[u8]) -> Option<(ScriptLine, &[u8])>
    ensures { line_and_rest result ≡ first_line text.now }
{
    let (line, rest) = cut_at(b'\n', text)?;
    Some((line_in(line)?, rest))
}

/// Reads a text as a script. An empty text is a script without lines.
pub fn read_script(text: &[u8]) -> Result<Script<'_>, ScriptFault>
    ensures exact { result ≡ script_in text.now }
    ensures meaning { IsReadAs text.now result }
{
    read_lines(text)
}

fn read_lines(text: &[u8]) -> Result<Script<'_>, ScriptFault>
    ensures { result ≡ script_in text.now }
{
    let mut rest = text;
    let mut line = 1;
    while !rest.is_empty() {
        let Some((_, more)) = first_line(rest) else {
            return Err(ScriptFault { line });
        };
        rest = more;
        line += 1;
    }
    Ok(Script { text })
}

impl<'a> Script<'a> {
    /// How many lines are still to come.
    pub fn lines(&self) -> u64
        ensures { result ≡ length self.now }
    {
        count_ends(self.text)
    }

    /// Takes the next line, if there is one.
    pub fn next_line(&mut self) -> Option<ScriptLine>
        ensures { IsTaken self.old result self.new }
    {
        let (line, rest) = first_line(self.text)?;
        self.text = rest;
        Some(line)
    }
}
