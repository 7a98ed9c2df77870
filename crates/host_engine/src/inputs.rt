//! What a script is run over: the files of its images and its store are read, and then the texts among the images are assembled.
#![tactic(auto)]

ghost use Rattle.std.specs.Prelude.{◌≡◌, ◌<◌, ℕ, List, Option, [], IfOk, IfErr, map, length, Ok};
ghost use Rattle.host_script.specs.Forms.{IsOrigin, AreImages};
ghost use Rattle.host_engine.specs.Assemblies.{Made, in_words, all_made};
ghost use Rattle.host_engine.specs.Commands.{origin_read, store_read, script_plan, images_judged};
ghost use Rattle.host_engine.specs.Plans.{Plan, Leads};
ghost use Rattle.host_engine.specs.Stages.{Onward, Refuses, AssemblyGives, made};

use crate::assembly::{Unassembled, assembly};
use crate::code::{Code, ImageFile, Listing};
use crate::limits::{CODE_LIMIT, STORE_LIMIT};
use crate::refusal::{Refusal, read_file};
use host_script::{Origin, Script};
use std::alloc::Global;
use std::marker::Model;
use uh_base::{Bytes, Files};

/// What the steps of a script are run over.
#[derive(Drop)]
pub struct Inputs {
    /// The bytes of the script's images, in the script's order.
    pub images: Vec<ImageFile>,
    /// The bytes of the file of the variables at opening, if there is one.
    pub store: Option<Bytes>,
}

impl Model for Inputs {
    ghost use Rattle.std.specs.Prelude.{map};
    ghost use Rattle.host_engine.specs.Inputs.{Inputs};

    ghost Value = { Inputs };

    ghost view = { λ inputs. record { images = map (λ image. image.bytes.items) inputs.images.items; store = inputs.store } };
}

/// What an image is made of: its text, or the bytes of its file, of which there are at most 4 MiB.
fn code_of<'a, F: Files>(
    alloc: Global,
    name: &'a str,
    origin: &'a Origin,
    files: &mut F,
) -> Result<Code<'a>, Refusal>
    requires { IsOrigin origin.now }
    ensures had { IfOk result (λ code. (next : Made → Plan) → Leads (F.told files.old) (origin_read name.now origin.now next) (next (made code))) }
    ensures refused { IfErr result (λ refusal. (next : Made → Plan) → Refuses (origin_read name.now origin.now next) refusal (F.told files.old) (F.faults files.old) (F.longs files.old) (F.faults files.new) (F.longs files.new)) }
    ensures onward { Onward (F.told files.old) (F.told files.new) (F.faults files.old) (F.faults files.new) (F.longs files.old) (F.longs files.new) }
{
    match origin {
        Origin::File(file) => match read_file(alloc, file.as_str(), CODE_LIMIT, files) {
            Ok(bytes) => Ok(Code::File(ImageFile { bytes })),
            Err(refusal) => Err(refusal),
        },
        Origin::Text(text) => Ok(Code::Text(Listing {
            name,
            text: text.as_str(),
        })),
    }
}

/// Reads the files of a script's images in their order.
pub fn read_images<'a, F: Files>(
    alloc: Global,
    script: &'a Script,
    files: &mut F,
) -> Result<Vec<Code<'a>>, Refusal>
    requires { AreImages [] script.now.image }
    ensures had { IfOk result (λ codes. Leads (F.told files.old) (script_plan (Ok script.now)) (images_judged script.now (map made codes.items))) }
    ensures many { IfOk result (λ codes. length codes.items ≡ length script.now.image) }
    ensures refused { IfErr result (λ refusal. Refuses (script_plan (Ok script.now)) refusal (F.told files.old) (F.faults files.old) (F.longs files.old) (F.faults files.new) (F.longs files.new)) }
    ensures onward { Onward (F.told files.old) (F.told files.new) (F.faults files.old) (F.faults files.new) (F.longs files.old) (F.longs files.new) }
{
    let images = script.image.as_slice();
    let mut codes = Vec::new(alloc);
    for image in images {
        let code = match code_of(alloc, image.name.as_str(), &image.origin, files) {
            Ok(code) => code,
            Err(refusal) => return Err(refusal),
        };
        if codes.push(code).is_err() {
            return Err(Refusal::Memory);
        }
    }
    Ok(codes)
}

/// Reads the file of a script's store, if it has one, of at most 128 KiB.
pub fn read_store<F: Files>(
    alloc: Global,
    script: &Script,
    files: &mut F,
) -> Result<Option<Bytes>, Refusal>
    ensures had { IfOk result (λ store. (next : Option (List ℕ) → Plan) → Leads (F.told files.old) (store_read script.now.store next) (next store)) }
    ensures refused { IfErr result (λ refusal. (next : Option (List ℕ) → Plan) → Refuses (store_read script.now.store next) refusal (F.told files.old) (F.faults files.old) (F.longs files.old) (F.faults files.new) (F.longs files.new)) }
    ensures onward { Onward (F.told files.old) (F.told files.new) (F.faults files.old) (F.faults files.new) (F.longs files.old) (F.longs files.new) }
{
    let name = match &script.store {
        Some(name) => name.as_str(),
        None => return Ok(None),
    };
    match read_file(alloc, name, STORE_LIMIT, files) {
        Ok(bytes) => Ok(Some(Bytes::from_vec(bytes))),
        Err(refusal) => Err(refusal),
    }
}

/// The bytes of an image: those of its file, or those that its text is assembled to.
fn image_of(alloc: Global, code: Code<'_>) -> Result<ImageFile, Unassembled>
    ensures { AssemblyGives (λ image. image.bytes.items) result (made code.entry) }
{
    match code {
        Code::File(image) => Ok(image),
        Code::Text(listing) => match assembly(alloc, listing.name, listing.text) {
            Ok(bytes) => Ok(ImageFile { bytes }),
            Err(why) => Err(why),
        },
    }
}

/// Assembles the texts among images, in their order.
pub fn assemble_texts(alloc: Global, codes: Vec<Code<'_>>) -> Result<Vec<ImageFile>, Unassembled>
    ensures gives { AssemblyGives (λ images. map (λ image. image.bytes.items) images.items) result (all_made (map made codes.entry.items)) }
    ensures many { IfOk result (λ images. length images.items ≡ length codes.entry.items) }
{
    let mut images = Vec::new(alloc);
    for code in codes {
        let image = match image_of(alloc, code) {
            Ok(image) => image,
            Err(why) => return Err(why),
        };
        if images.push(image).is_err() {
            return Err(Unassembled::Memory);
        }
    }
    Ok(images)
}
