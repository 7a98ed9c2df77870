//! The images of a script.
ghost use Rattle.std.specs.Prelude.{◌≡◌, []};
ghost use Rattle.toml.specs.View.{view, table_view, items_view};
ghost use Rattle.host_script.specs.Faults.{Gives};
ghost use Rattle.host_script.specs.Fields.{seen_one};
ghost use Rattle.host_script.specs.Script.{has_image, new_name, short_text, origin_of, image_in, image_at, images_of};

use crate::fault::{Fault, ScriptKind};
use crate::fields;
use crate::script::{ImageSpec, Origin};
use std::alloc::Global;
use toml::{Table, Value};
use uh_base::{Text, is_name};

/// The most bytes that an assembly text has.
const TEXT_LIMIT: usize = 0x40_0000;

/// Whether an image has the name.
pub(crate) fn has_image(images: &[ImageSpec], name: &str) -> bool
    ensures { result ≡ has_image images.now name.now }
{
    for image in images {
        if image.name.as_str() == name {
            return true;
        }
    }
    false
}

/// A name that no image before has.
fn new_name<'a>(before: &[ImageSpec], name: &'a str) -> Result<&'a str, ScriptKind>
    ensures { seen_one result ≡ new_name before.now name.now }
{
    if !is_name(name) {
        return Err(ScriptKind::Value);
    }
    if has_image(before, name) {
        return Err(ScriptKind::Name);
    }
    Ok(name)
}

/// An image that a text is assembled to.
fn short_text(alloc: Global, text: &str) -> Result<Origin, Fault>
    ensures { Gives (λ origin. origin) result (short_text text.now) }
{
    if text.len() > TEXT_LIMIT {
        return Err(Fault::Kind(ScriptKind::Value));
    }
    Ok(Origin::Text(Text::new(alloc, text)?))
}

/// Where the bytes of an image come from: a file or a text, one of the two.
#[tactic(auto, unfolding(crate::specs::Script::origin_of))]
pub(crate) fn origin_of(alloc: Global, image: &Table) -> Result<Origin, Fault>
    ensures { Gives (λ origin. origin) result (origin_of (table_view image.now)) }
{
    let file = fields::text_field(image, "file")?;
    let text = fields::text_field(image, "text")?;
    match (file, text) {
        (Some(file), None) => Ok(Origin::File(Text::new(alloc, file)?)),
        (None, Some(text)) => short_text(alloc, text),
        (None, None) => Err(Fault::Kind(ScriptKind::Missing)),
        (Some(_), Some(_)) => Err(Fault::Kind(ScriptKind::Shape)),
    }
}

#[tactic(auto, unfolding(crate::specs::Script::image_in))]
fn image_in(alloc: Global, before: &[ImageSpec], image: &Table) -> Result<ImageSpec, Fault>
    ensures { Gives (λ image. image) result (image_in before.now (table_view image.now)) }
{
    fields::only_keys(image, &["name", "file", "text"])?;
    let name = new_name(before, fields::needed_text(image, "name")?)?;
    let origin = origin_of(alloc, image)?;
    Ok(ImageSpec {
        name: Text::new(alloc, name)?,
        origin,
    })
}

#[tactic(auto, unfolding(crate::specs::Script::image_at))]
fn image_at(alloc: Global, before: &[ImageSpec], value: &Value) -> Result<ImageSpec, Fault>
    ensures { Gives (λ image. image) result (image_at before.now (view value.now)) }
{
    match value.as_table() {
        Some(image) => image_in(alloc, before, image),
        None => Err(Fault::Kind(ScriptKind::Shape)),
    }
}

/// The images of a list of tables.
pub(crate) fn images_of(alloc: Global, values: &[Value]) -> Result<Vec<ImageSpec>, Fault>
    ensures { Gives (λ images. images.items) result (images_of [] (items_view values.now)) }
{
    let mut images = Vec::new(alloc);
    for value in values {
        let image = image_at(alloc, images.as_slice(), value)?;
        images.push(image)?;
    }
    Ok(images)
}
