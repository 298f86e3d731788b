// Images as bytes.

ghost use Rattle.std.specs.Prelude.{◌≡◌, ◌≤◌, ◌++◌, true, slice_index, Ok, IfOk};
ghost use Rattle.p3l_base.specs.Limits.{most_tokens};
ghost use Rattle.p3l_base.specs.Memory.{IfGiven, OnGiven};
ghost use Rattle.p3l_image.specs.declared.image.Image.{Image as TheImage};
ghost use Rattle.p3l_image.specs.Image.{body_format, image_format, image_in, image_text, CanBeWritten, ImageBeginsNoOther, IsSpelling, OldTextsHaveNoRescue};
ghost use Rattle.p3l_image.specs.Places.{FieldsAreTheBytes, IsAtFirstFault};
ghost use Rattle.p3l_image.specs.Refusal.{Answers, refusal_of, version_at};
ghost use Rattle.p3l_image.specs.laws.Image.{lawful_body, lawful_image};

use crate::code::CODES;
use crate::image::{Image, ImageRefusal};
use crate::net::NetField;
use p3l_base::limits::MOST_TOKENS;
use p3l_base::{List, NoMemory};
use p3l_format::{Cause, Field, FieldFault, ReadError, read_exact, read_u32_in, write_u32};
use p3l_skel::Counts;
use p3l_tree_format::{COUNTS, TreeField, Version, read_version, write_version};
use std::alloc::Global;

const MAGIC: u32 = 0x5033_4c49;

// The fields after the magic number and this version.
#[derive(Clone, Copy, Drop)]
struct BodyField {
    version: Version,
}

impl Field for BodyField {
    type Value = Image;

    ghost format = { λ it. body_format it.version };

    ghost lawful = { λ it. lawful_body it.version };

    #[tactic(auto, unfolding(crate::specs::Image::body_format, p3l_format::specs::Format::pair, p3l_format::specs::Format::as_form))]
    fn read<'a>(&self, alloc: Global, bytes: &'a [u8]) -> Result<(Image, &'a [u8]), ReadError> {
        let version = self.version;
        let (cap, rest) = read_u32_in(1, MOST_TOKENS, bytes)?;
        let (tree, rest) = TreeField { version }.read(alloc, rest)?;
        let (list, rest) = COUNTS.read(alloc, rest)?;
        let (codes, rest) = CODES.read(alloc, rest)?;
        let field = NetField {
            nodes: tree.nodes.len(),
        };
        let (net, rest) = field.read(alloc, rest)?;
        Ok((
            Image {
                cap,
                tree,
                counts: Counts { list },
                codes,
                net,
            },
            rest,
        ))
    }

    #[tactic(auto, unfolding(crate::specs::Image::body_format, p3l_format::specs::Format::pair, p3l_format::specs::Format::as_form, p3l_format::specs::Format::within))]
    fn write(&self, value: &Image, out: &mut Vec<u8>) -> Result<(), NoMemory> {
        let version = self.version;
        write_u32(value.cap, out)?;
        TreeField { version }.write(&value.tree, out)?;
        COUNTS.write(&value.counts.list, out)?;
        CODES.write(&value.codes, out)?;
        let field = NetField {
            nodes: value.tree.nodes.len(),
        };
        field.write(&value.net, out)
    }
}

// Puts an image after others, in a version.
#[tactic(auto, unfolding(crate::specs::Image::image_format, p3l_format::specs::Format::pair, p3l_format::specs::Format::after, p3l_format::specs::Format::within))]
fn write_image(version: Version, image: &Image, out: &mut Vec<u8>) -> Result<(), NoMemory>
    requires { image_format.fits (version, image.now) ≡ true }
    ensures { OnGiven result (out.new.items
        ≡ out.old.items ++ image_format.spell (version, image.now)) }
{
    write_u32(MAGIC, out)?;
    write_version(version, out)?;
    BodyField { version }.write(image, out)
}

// A whole image, and its version.
#[derive(Clone, Copy, Drop)]
struct ImageField;

impl Field for ImageField {
    type Value = (Version, Image);

    ghost format = { λ _. image_format };

    ghost lawful = { λ _. lawful_image };

    #[tactic(auto, unfolding(crate::specs::Image::image_format, p3l_format::specs::Format::pair, p3l_format::specs::Format::after))]
    fn read<'a>(
        &self,
        alloc: Global,
        bytes: &'a [u8],
    ) -> Result<((Version, Image), &'a [u8]), ReadError> {
        let rest = read_exact(MAGIC, bytes)?;
        let (version, rest) = read_version(rest)?;
        let (image, rest) = BodyField { version }.read(alloc, rest)?;
        Ok(((version, image), rest))
    }

    fn write(&self, value: &(Version, Image), out: &mut Vec<u8>) -> Result<(), NoMemory> {
        write_image(value.0, &value.1, out)
    }
}

/// The bytes of an image whose fields are in their ranges, in version 2: each node has the form of
/// its module's kind, what names a module, a node or a channel names one that is there, and only
/// `seq` and `comp` modules have rescue numbers.
pub fn encode(alloc: Global, image: &Image) -> Result<List<u8>, NoMemory>
    requires { CanBeWritten image.now }
    ensures { IfGiven result (λ bytes. bytes ≡ image_text image.now) }
{
    let mut out = Vec::new(alloc);
    write_image(Version::Two, image, &mut out)?;
    Ok(List::from_vec(out))
}

/// The image that bytes spell in version 1 or 2, or why they spell none, by the first fault. Memory
/// is taken for what is there, and not for what a count promises.
pub fn decode(alloc: Global, bytes: &[u8]) -> Result<Image, ImageRefusal>
    // The bytes are a spelling of the image that is read.
    ensures found { IfOk result (λ image. IsSpelling image bytes.now) }
    // An image that is spelled so is read, unless memory runs out.
    ensures only { (image : TheImage) → IsSpelling image bytes.now
        → Answers bytes.now result (Ok image) }
    // Its capacity is in its range.
    ensures some { IfOk result (λ image. 1 ≤ image.cap) }
    ensures few { IfOk result (λ image. image.cap ≤ most_tokens) }
    // An image that was read can be written, in version 2.
    ensures again { IfOk result CanBeWritten }
    // The place of a refusal is that of the first field that isn't whole or is out of its range.
    ensures place { IsAtFirstFault bytes.now result }
    // The fault that it is.
    ensures exact { Answers bytes.now result (image_in bytes.now) }
{
    match p3l_format::decode(&ImageField, alloc, bytes) {
        Ok((_version, image)) => Ok(image),
        Err(ReadError::NoMemory) => Err(ImageRefusal::NoMemory),
        Err(ReadError::Wrong(fault)) => Err(refusal(bytes, fault)),
    }
}

// The refusal of bytes with this first fault.
fn refusal(bytes: &[u8], fault: FieldFault) -> ImageRefusal
    ensures { result ≡ refusal_of bytes.now fault }
{
    let place = bytes.len().saturating_sub(fault.left) as u64;
    match fault.cause {
        Cause::Short => ImageRefusal::Short(place),
        Cause::More => ImageRefusal::TrailingBytes(place),
        Cause::Range => {
            if place == 0 {
                return ImageRefusal::BadMagic;
            }
            if place == 4 {
                return ImageRefusal::Version(version_in(bytes));
            }
            ImageRefusal::BadField(place)
        }
    }
}

// The number in the four bytes after the magic number, where bytes past the end count as 0.
fn version_in(bytes: &[u8]) -> u32
    ensures { result ≡ version_at bytes.now }
{
    u32::from_be_bytes([
        byte_at(bytes, 4),
        byte_at(bytes, 5),
        byte_at(bytes, 6),
        byte_at(bytes, 7),
    ])
}

// A byte, and 0 past the end.
fn byte_at(bytes: &[u8], place: usize) -> u8
    ensures { result ≡ slice_index bytes.now place }
{
    bytes.get(place).copied().unwrap_or(0)
}

/// No image begins another, in whatever versions they are spelled.
pub fn image_begins_no_other()
    ensures { ImageBeginsNoOther }
{}

/// An image has a spelling in version 1 exactly where it can be written and no module has a rescue
/// number.
pub fn old_texts_have_no_rescue()
    ensures { OldTextsHaveNoRescue }
{}

/// The fields of an image's spelling are its bytes.
pub fn fields_are_the_bytes()
    ensures { FieldsAreTheBytes }
{}
