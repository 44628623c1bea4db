//! The elements that a picture is made of.
ghost use Rattle.std.specs.Prelude.{◌≡◌, ◌++◌, true, OnOk, codes, decimal};
ghost use Rattle.std.specs.List.{list_all};
ghost use Rattle.sto_lang.specs.Ascii.{is_ascii};
ghost use Rattle.sto_picture.specs.Elements.{attribute, class_text, place_text, box_text, words_head, words_text, point_text, turn_text, arrow_text};

use itoa::Buffer;
use sto_lang::Text;
use sto_part::NoMemory;

/// Adds a number.
pub(crate) fn push_number(out: &mut Text, value: u64) -> Result<(), NoMemory>
    ensures { OnOk result (out.new.items ≡ out.old.items ++ decimal value) }
{
    let mut buffer = Buffer::new();
    out.append(buffer.format(value))
}

#[tactic(auto, unfolding(crate::specs::Elements::attribute))]
/// Adds an attribute with a number.
pub(crate) fn push_attribute(out: &mut Text, name: &str, value: u64) -> Result<(), NoMemory>
    requires { list_all is_ascii name.now ≡ true }
    ensures { OnOk result (out.new.items ≡ out.old.items ++ attribute name.now value) }
{
    out.append(" ")?;
    out.append(name)?;
    out.append("='")?;
    push_number(out, value)?;
    out.append("'")
}

#[tactic(auto, unfolding(crate::specs::Elements::class_text))]
/// Begins an element in a role.
fn begin_element(out: &mut Text, element: &str, role: &str) -> Result<(), NoMemory>
    requires element { list_all is_ascii element.now ≡ true }
    requires role { list_all is_ascii role.now ≡ true }
    ensures { OnOk result (out.new.items ≡ out.old.items ++ class_text element.now role.now) }
{
    out.append("<")?;
    out.append(element)?;
    out.append(" class='")?;
    out.append(role)?;
    out.append("'")
}

#[tactic(auto, unfolding(crate::specs::Elements::place_text))]
/// Adds where an element stands.
fn push_place(out: &mut Text, x: u64, y: u64) -> Result<(), NoMemory>
    ensures { OnOk result (out.new.items ≡ out.old.items ++ place_text x y) }
{
    push_attribute(out, "x", x)?;
    push_attribute(out, "y", y)
}

#[tactic(auto, unfolding(crate::specs::Elements::box_text))]
/// Adds a box in a role, by its left and its upper edge, its width and its height.
pub(crate) fn push_box(
    out: &mut Text,
    role: &str,
    x: u64,
    y: u64,
    width: u64,
    height: u64,
) -> Result<(), NoMemory>
    requires { list_all is_ascii role.now ≡ true }
    ensures { OnOk result (out.new.items ≡ out.old.items ++ box_text role.now x y width height) }
{
    begin_element(out, "rect", role)?;
    push_place(out, x, y)?;
    push_attribute(out, "width", width)?;
    push_attribute(out, "height", height)?;
    out.append("/>\n")
}

#[tactic(auto, unfolding(crate::specs::Elements::words_head))]
/// Begins words in a role, at a place.
pub(crate) fn begin_words(out: &mut Text, role: &str, x: u64, y: u64) -> Result<(), NoMemory>
    requires { list_all is_ascii role.now ≡ true }
    ensures { OnOk result (out.new.items ≡ out.old.items ++ words_head role.now x y) }
{
    begin_element(out, "text", role)?;
    push_place(out, x, y)?;
    out.append(">")
}

/// Ends words.
pub(crate) fn end_words(out: &mut Text) -> Result<(), NoMemory>
    ensures { OnOk result (out.new.items ≡ out.old.items ++ codes "</text>\n") }
{
    out.append("</text>\n")
}

/// Adds words in a role, at a place.
pub(crate) fn push_words(
    out: &mut Text,
    role: &str,
    x: u64,
    y: u64,
    words: &str,
) -> Result<(), NoMemory>
    requires role { list_all is_ascii role.now ≡ true }
    requires words { list_all is_ascii words.now ≡ true }
    ensures { OnOk result (out.new.items ≡ out.old.items ++ words_text role.now x y words.now) }
{
    begin_words(out, role, x, y)?;
    out.append(words)?;
    end_words(out)
}

/// An arrow: from a point to a line above it, along this line, and up to its head.
#[derive(Clone, Copy)]
pub(crate) struct Arrow {
    pub(crate) x: u64,
    pub(crate) y: u64,
    pub(crate) line: u64,
    pub(crate) to: u64,
    pub(crate) head: u64,
}

#[tactic(auto, unfolding(crate::specs::Elements::point_text))]
/// Adds a point of a path.
fn push_point(out: &mut Text, x: u64, y: u64) -> Result<(), NoMemory>
    ensures { OnOk result (out.new.items ≡ out.old.items ++ point_text x y) }
{
    out.append("M")?;
    push_number(out, x)?;
    out.append(" ")?;
    push_number(out, y)
}

#[tactic(auto, unfolding(crate::specs::Elements::turn_text))]
/// Adds where a path turns.
fn push_turn(out: &mut Text, axis: &str, to: u64) -> Result<(), NoMemory>
    requires { list_all is_ascii axis.now ≡ true }
    ensures { OnOk result (out.new.items ≡ out.old.items ++ turn_text axis.now to) }
{
    out.append(axis)?;
    push_number(out, to)
}

#[tactic(auto, unfolding(crate::specs::Elements::arrow_text))]
/// Adds an arrow.
pub(crate) fn push_arrow(out: &mut Text, arrow: Arrow) -> Result<(), NoMemory>
    ensures { OnOk result (out.new.items ≡ out.old.items ++ arrow_text arrow.x arrow.y arrow.line arrow.to arrow.head) }
{
    out.append("<path class='arrow' d='")?;
    push_point(out, arrow.x, arrow.y)?;
    push_turn(out, "V", arrow.line)?;
    push_turn(out, "H", arrow.to)?;
    push_turn(out, "V", arrow.head)?;
    out.append("'/>\n")
}
