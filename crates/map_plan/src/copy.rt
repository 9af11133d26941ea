// Copies of what a configuration says.
ghost use Rattle.std.specs.Prelude.{◌≡◌, IfOk};

use conf_text::Text;
use lilo_conf::Section;
use std::alloc::{AllocError, Global};

// A copy of a text.
fn copy_text(alloc: Global, text: &Text) -> Result<Text, AllocError>
    ensures { IfOk result (λ copy. copy ≡ text.now) }
{
    Text::new(alloc, text.bytes())
}

// A copy of one that may be absent.
fn copy_some(alloc: Global, text: &Option<Text>) -> Result<Option<Text>, AllocError>
    ensures { IfOk result (λ copy. copy ≡ text.now) }
{
    match text {
        Some(text) => match copy_text(alloc, text) {
            Ok(copy) => Ok(Some(copy)),
            Err(fault) => Err(fault),
        },
        None => Ok(None),
    }
}

// A copy of a section.
pub(crate) fn copy_section(alloc: Global, section: &Section) -> Result<Section, AllocError>
    ensures { IfOk result (λ copy. copy ≡ section.now) }
{
    let path = copy_text(alloc, &section.path)?;
    let label = copy_text(alloc, &section.label)?;
    let alias = copy_some(alloc, &section.alias)?;
    let initrd = copy_some(alloc, &section.initrd)?;
    let append = copy_some(alloc, &section.append)?;
    let literal = copy_some(alloc, &section.literal)?;
    let password = copy_some(alloc, &section.password)?;
    let fallback = copy_some(alloc, &section.fallback)?;
    Ok(Section {
        other: section.other,
        path,
        label,
        alias,
        initrd,
        root: section.root,
        mount: section.mount,
        append,
        literal,
        vga: section.vga,
        password,
        restricted: section.restricted,
        optional: section.optional,
        lock: section.lock,
        fallback,
        table: section.table,
        line: section.line,
    })
}
