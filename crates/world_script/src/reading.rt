//! Reading a whole script.

ghost use Rattle.std.specs.Prelude.{◌≡◌, ◌<◌, ◌≤◌, ◌+◌, ◌^◌, length, IfOk, IfErr};
ghost use Rattle.std.specs.List.{AllByRecursion};
ghost use Rattle.text_words.specs.Lines.{lines_of};
ghost use Rattle.schema_text.specs.Schemas.{Declares};
ghost use Rattle.world_script.specs.declared.fault.ScriptError.TheVariants.{Memory};
ghost use Rattle.world_script.specs.declared.line.Line.{Line as LineData};
ghost use Rattle.world_script.specs.declared.script.Script.{Script as ScriptData};
ghost use Rattle.world_script.specs.Lines.{HasForm, IsPlace, Says, opens as opens_one, place_after as after_line};
ghost use Rattle.world_script.specs.Outcome.{Answers, HasCause, IfFault, OfLine, OfSchema};
ghost use Rattle.world_script.specs.Scripts.{BodyFault, BodySays, FaultIn, IsScript, LinesSay, heading_in};

use crate::heading::{Heading, heading_of};
use crate::lines::line_of;
use crate::parts::parts_of;
use crate::place::Place;
use crate::{
    Event, Line, LineList, MAX_SCRIPT_BYTES, Script, ScriptError, ScriptFault, no_fault, one_script,
};
use row_check::{Checks, Native, Relation};
use schema::Schema;
use schema_text::{SchemaError, read_schema};
use std::alloc::Global;
use text_words::next_line;
use update_model::ByteList;

/// The script that a text is.
///
/// A fault is the first one: a text of more than [`MAX_SCRIPT_BYTES`] has it at line 0, and a schema that is none has
/// it as [`read_schema`] tells it, with these native checks; then comes the first line that says nothing. The
/// operations of an update that are found are such as a body may hold. The time is linear in the text.
pub fn read_script<L: Relation, C: Checks<L>>(
    alloc: Global,
    text: &[u8],
    native: &Native<L, C>,
) -> Result<Script, ScriptError>
    ensures found { IfOk result (λ script. IsScript L.answer text.now script) }
    ensures form { IfOk result (λ script. AllByRecursion HasForm script.lines) }
    ensures only { (script : ScriptData) → IsScript L.answer text.now script → Answers result script }
    ensures fault { IfErr result (λ error. HasCause L.answer text.now error) }
{
    one_script();
    no_fault();
    read_any(alloc, text, native)
}

/// The script that a text is, of whatever length.
fn read_any<L: Relation, C: Checks<L>>(
    alloc: Global,
    text: &[u8],
    native: &Native<L, C>,
) -> Result<Script, ScriptError>
    ensures found { IfOk result (λ script. IsScript L.answer text.now script) }
    ensures form { IfOk result (λ script. AllByRecursion HasForm script.lines) }
    ensures fault { IfErr result (λ error. HasCause L.answer text.now error) }
{
    if MAX_SCRIPT_BYTES < text.len() {
        return Err(at_line(0));
    }
    let parts = parts_of(text);
    let schema = schema_of(alloc, parts.schema, native)?;
    read_body(alloc, &schema, parts.schema, parts.number, parts.rest)
}

/// A line that says nothing.
fn at_line(number: u32) -> ScriptError
    ensures { IfFault result (OfLine (λ line. line ≡ number)) }
{
    ScriptError::Fault(ScriptFault::AtLine(number))
}

/// The schema that the lines before the line `WORLD` declare.
fn schema_of<L: Relation, C: Checks<L>>(
    alloc: Global,
    text: &[u8],
    native: &Native<L, C>,
) -> Result<Schema, ScriptError>
    ensures found { IfOk result (λ schema. Declares L.answer text.now schema) }
    ensures fault { IfErr result (λ error. IfFault error (OfSchema L.answer text.now)) }
{
    match read_schema(alloc, text, native) {
        Ok(schema) => Ok(schema),
        Err(SchemaError::Fault(fault)) => Err(ScriptError::Fault(ScriptFault::Schema(fault))),
        Err(SchemaError::Memory) => Err(ScriptError::Memory),
    }
}

/// The script of a schema, of its text, and of the lines that follow it, from this number on.
fn read_body(
    alloc: Global,
    schema: &Schema,
    front: &[u8],
    number: u32,
    text: &[u8],
) -> Result<Script, ScriptError>
    requires { number + length text.now ≤ MAX_SCRIPT_BYTES + 1 }
    ensures part { IfOk result (λ script. script.schema ≡ front.now) }
    ensures says { IfOk result (λ script. BodySays schema.now number (lines_of text.now) (heading_in script)
        script.lines) }
    ensures form { IfOk result (λ script. AllByRecursion HasForm script.lines) }
    ensures fault { IfErr result (λ error. IfFault error (OfLine (BodyFault schema.now number (lines_of text.now)))) }
{
    let Some((world, rest)) = next_line(text) else {
        return Err(at_line(number));
    };
    let Some(heading) = heading_of(world) else {
        return Err(at_line(number));
    };
    let start = Place {
        number: number + 1,
        replicas: heading.replicas,
        opened: 0,
    };
    let lines = read_lines(alloc, schema, start, rest)?;
    script_of(alloc, front, heading, lines)
}

/// The script of these parts.
fn script_of(
    alloc: Global,
    schema: &[u8],
    heading: Heading,
    lines: Vec<Line>,
) -> Result<Script, ScriptError>
    ensures part { IfOk result (λ script. script.schema ≡ schema.now) }
    ensures heading { IfOk result (λ script. heading_in script ≡ heading) }
    ensures lines { IfOk result (λ script. script.lines ≡ lines.items) }
    ensures memory { IfErr result (λ error. error ≡ Memory) }
{
    Ok(Script {
        schema: ByteList::from_vec(Vec::from_slice(alloc, schema)?),
        replicas: heading.replicas,
        lms: heading.lms,
        ots: heading.ots,
        number: heading.number,
        lines: LineList::from_vec(lines),
    })
}

/// What these lines say, of which the first is at this place.
fn read_lines(
    alloc: Global,
    schema: &Schema,
    start: Place,
    text: &[u8],
) -> Result<Vec<Line>, ScriptError>
    requires place { IsPlace start }
    requires few { start.number + length text.now ≤ MAX_SCRIPT_BYTES + 1 }
    ensures says { IfOk result (λ lines. LinesSay schema.now start (lines_of text.now) lines.items) }
    ensures form { IfOk result (λ lines. AllByRecursion HasForm lines.items) }
    ensures fault { IfErr result (λ error. IfFault error (OfLine (FaultIn schema.now start (lines_of text.now)))) }
{
    let mut lines = Vec::new(alloc);
    let mut place = start;
    let mut rest = text;
    while let Some((line, after)) = next_line(rest) {
        let said = read_line(alloc, schema, place, line)?;
        place = place_after(place, &said);
        lines.push(said)?;
        rest = after;
    }
    Ok(lines)
}

/// What the line at this place says.
fn read_line(alloc: Global, schema: &Schema, place: Place, line: &[u8]) -> Result<Line, ScriptError>
    requires place { IsPlace place }
    requires short { length line.now < 2 ^ 63 }
    ensures says { IfOk result (λ said. Says schema.now place line.now said) }
    ensures form { IfOk result (λ said. HasForm said) }
    ensures nothing { IfErr result (λ error.
        IfFault error (OfLine (λ number. ((said : LineData) → Says schema.now place line.now said → ⊥)
        × (number ≡ place.number)))) }
{
    match line_of(alloc, schema, place, line)? {
        Some(said) => Ok(said),
        None => Err(at_line(place.number)),
    }
}

/// The place of the line after one that says this.
fn place_after(place: Place, said: &Line) -> Place
    requires { IsPlace place }
    ensures { result ≡ after_line place said.now }
{
    Place {
        number: place.number + 1,
        replicas: place.replicas,
        opened: place.opened + u32::from(opens(said)),
    }
}

/// Whether a line opens a session.
fn opens(said: &Line) -> bool
    ensures { result ≡ opens_one said.now }
{
    match said {
        Line::One {
            line: _,
            event: Event::Start { .. },
        } => true,
        _ => false,
    }
}
