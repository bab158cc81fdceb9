//! `format`: the list of its sections.

ghost use Rattle.std.specs.Prelude.{◌≡◌, List, [], ◌∷◌, ◌++◌, OnOk, IfErr};
ghost use Rattle.prop_values.specs.Data.{Data};
ghost use Rattle.prop_values.specs.View.{data_of};
ghost use Rattle.prop_values.specs.ViewParts.{values_view};
ghost use Rattle.format_text.specs.Sections.{section_of, section_with};
ghost use Rattle.expr_syntax.specs.declared.parts.Role.TheVariants.{Scale, Font, Color};
ghost use Rattle.operator_values.specs.Evaluated.{GivesValue};
ghost use Rattle.halts.specs.declared.halt.Halt.TheVariants.{NoMemory};
ghost use Rattle.eval_face.specs.Sections.{add_piece, add_pieces, closed, format_of};
ghost use Rattle.operator_rules.specs.OpenSection.{GivesOpen};

use decimal_json::Text;
use expr_syntax::{FormatPiece, Role};
use format_text::{Section, section};
use operator_values::Halt;
use prop_values::{EvalFault, Value, Values, copy};
use std::alloc::Global;

/// The list of the sections of values, by what each of them is. The first is a content.
pub(crate) fn sections(
    alloc: Global,
    pieces: &[FormatPiece],
    values: &[Value],
) -> Result<Value, Halt>
    ensures { GivesValue result (format_of pieces.now (values_view values.now)) }
{
    let [_, later_pieces @ ..] = pieces else {
        return Err(Halt::Fault(EvalFault::WrongType));
    };
    let [Value::Text(first), later_values @ ..] = values else {
        return Err(Halt::Fault(EvalFault::WrongType));
    };
    listed(alloc, first.share()?, later_pieces, later_values)
}

// The list of the sections from a content on.
fn listed(
    alloc: Global,
    content: Text,
    pieces: &[FormatPiece],
    values: &[Value],
) -> Result<Value, Halt>
    ensures { GivesValue result (closed (add_pieces pieces.now (values_view values.now) ([], section_with content))) }
{
    let mut sections = Values::new(alloc);
    let mut current = opened(content);
    let mut place = 0;
    while place < pieces.len() && place < values.len() {
        current = with_piece(
            alloc,
            &mut sections,
            current,
            pieces[place].role,
            &values[place],
        )?;
        place += 1;
    }
    push_section(alloc, &mut sections, current)?;
    Ok(Value::List(sections))
}

// One argument more: a content opens a section, and an option is one of the open section.
fn with_piece(
    alloc: Global,
    sections: &mut Values,
    current: Section,
    role: Role,
    value: &Value,
) -> Result<Section, Halt>
    ensures { GivesOpen sections.new result (add_piece role (data_of value.now) (sections.old, current)) }
{
    match role {
        Role::Content => {
            let Value::Text(content) = value else {
                return Err(Halt::Fault(EvalFault::WrongType));
            };
            push_section(alloc, sections, current)?;
            Ok(opened(content.share()?))
        }
        Role::Scale => with_scale(current, value),
        Role::Font => with_font(current, value),
        Role::Color => with_color(current, value),
    }
}

fn with_scale(current: Section, value: &Value) -> Result<Section, Halt>
    ensures { (before : List Data) → GivesOpen before result (add_piece Scale (data_of value.now) (before, current)) }
{
    let Section {
        content,
        font,
        color,
        ..
    } = current;
    match value {
        Value::Num(scale) => Ok(Section {
            content,
            scale: Some(*scale),
            font,
            color,
        }),
        _ => Err(Halt::Fault(EvalFault::WrongType)),
    }
}

#[tactic(auto, using(prop_values::proofs::ViewLaws::value_again))]
fn with_font(current: Section, value: &Value) -> Result<Section, Halt>
    ensures { (before : List Data) → GivesOpen before result (add_piece Font (data_of value.now) (before, current)) }
{
    let font = copy(value)?;
    let Section {
        content,
        scale,
        color,
        ..
    } = current;
    Ok(Section {
        content,
        scale,
        font: Some(font),
        color,
    })
}

fn with_color(current: Section, value: &Value) -> Result<Section, Halt>
    ensures { (before : List Data) → GivesOpen before result (add_piece Color (data_of value.now) (before, current)) }
{
    let Section {
        content,
        scale,
        font,
        ..
    } = current;
    match value {
        Value::Color(color) => Ok(Section {
            content,
            scale,
            font,
            color: Some(color.copy()),
        }),
        _ => Err(Halt::Fault(EvalFault::WrongType)),
    }
}

fn opened(content: Text) -> Section
    ensures { result ≡ section_with content }
{
    Section {
        content,
        scale: None,
        font: None,
        color: None,
    }
}

// The value of a section at the end of those before it.
fn push_section(alloc: Global, sections: &mut Values, current: Section) -> Result<(), Halt>
    ensures ok { OnOk result (sections.new ≡ sections.old ++ section_of current ∷ []) }
    ensures err { IfErr result (λ halt. halt ≡ NoMemory) }
{
    let Section {
        content,
        scale,
        font,
        color,
    } = current;
    sections.push(section(alloc, content, scale, font, color)?)?;
    Ok(())
}
