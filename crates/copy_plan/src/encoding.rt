//! Writing the code of a plan (docs/FORMATS.md, "Plans").

ghost use Rattle.std.specs.Prelude.{◌≡◌, ◌++◌, ◌∷◌, [], ◌+◌, ◌*◌, ◌<◌, ◌≤◌, length, option_map, OnOk, IfOk};
ghost use Rattle.std.specs.List.{flat_map};
ghost use Rattle.copy_plan.specs.Fields.{moment_code, label_code, path_code, choice_code, kinds_code, source_code, file_code, is_plain, plan_code, largest_code};

use crate::file::PlannedFile;
use crate::plan::Plan;
use path_text::{Kinds, Label, Moment, PathText};
use std::alloc::{AllocError, Global};

#[tactic(auto, unfolding(crate::specs::Fields::moment_code))]
fn put_moment(code: &mut Vec<u8>, moment: Moment) -> Result<(), AllocError>
    ensures { OnOk result (code.new.items ≡ code.old.items ++ moment_code moment) }
{
    code.extend_from_slice(&moment.seconds().to_be_bytes())?;
    Ok(())
}

#[tactic(auto, unfolding(crate::specs::Fields::label_code))]
fn put_label(code: &mut Vec<u8>, label: &Label) -> Result<(), AllocError>
    ensures { OnOk result (code.new.items ≡ code.old.items ++ label_code label.now) }
{
    let text = label.as_str().as_bytes();
    code.push(text.len() as u8)?;
    code.extend_from_slice(text)?;
    Ok(())
}

#[tactic(auto, unfolding(crate::specs::Fields::path_code))]
fn put_path(code: &mut Vec<u8>, path: &PathText) -> Result<(), AllocError>
    ensures { OnOk result (code.new.items ≡ code.old.items ++ path_code path.now) }
{
    let text = path.as_str().as_bytes();
    code.extend_from_slice(&(text.len() as u16).to_be_bytes())?;
    code.extend_from_slice(text)?;
    Ok(())
}

// Whether a plan with these kinds and this source list has the short code.
fn is_plain(kinds: Kinds, source_list: Option<&PathText>) -> bool
    ensures { result ≡ is_plain kinds (option_map (λ path. path.now) source_list.entry) }
{
    kinds.md5 && kinds.sha1 && kinds.xxh && source_list.is_none()
}

#[tactic(auto, unfolding(crate::specs::Fields::source_code))]
fn put_source(code: &mut Vec<u8>, source_list: Option<&PathText>) -> Result<(), AllocError>
    ensures { OnOk result (code.new.items ≡ code.old.items ++ source_code (option_map (λ path. path.now) source_list.entry)) }
{
    match source_list {
        None => {
            code.extend_from_slice(&0u16.to_be_bytes())?;
            Ok(())
        }
        Some(path) => put_path(code, path),
    }
}

#[tactic(auto, unfolding(crate::specs::Fields::kinds_code))]
fn kinds_byte(kinds: Kinds) -> u8
    ensures { kinds_code kinds ≡ result ∷ [] }
{
    u8::from(kinds.md5) + 2 * u8::from(kinds.sha1) + 4 * u8::from(kinds.xxh)
}

// The kinds and the source list, of a plan that has these fields.
fn put_choice(
    code: &mut Vec<u8>,
    kinds: Kinds,
    source_list: Option<&PathText>,
) -> Result<(), AllocError>
    ensures { OnOk result (code.new.items ≡ code.old.items ++ choice_code kinds (option_map (λ path. path.now) source_list.entry)) }
{
    if is_plain(kinds, source_list) {
        return Ok(());
    }
    code.push(kinds_byte(kinds))?;
    put_source(code, source_list)?;
    Ok(())
}

#[tactic(auto, unfolding(crate::specs::Fields::file_code))]
fn put_file(code: &mut Vec<u8>, file: &PlannedFile) -> Result<(), AllocError>
    ensures { OnOk result (code.new.items ≡ code.old.items ++ file_code file.now) }
{
    put_path(code, &file.path)?;
    code.extend_from_slice(&file.size.to_be_bytes())?;
    put_moment(code, file.modified)?;
    Ok(())
}

fn put_files(code: &mut Vec<u8>, files: &[PlannedFile]) -> Result<(), AllocError>
    ensures { OnOk result (code.new.items ≡ code.old.items ++ flat_map file_code files.now) }
{
    for file in files {
        put_file(code, file)?;
    }
    Ok(())
}

/// The code of a plan. The error is want of memory.
#[tactic(auto, unfolding(crate::specs::Fields::plan_code, crate::specs::Fields::count_code))]
pub fn encode(alloc: Global, plan: &Plan) -> Result<Vec<u8>, AllocError>
    ensures { IfOk result (λ code. code.items ≡ plan_code plan.now) }
{
    let mut code = Vec::with_capacity(alloc, encoded_len(plan) as usize)?;
    let mark = if is_plain(plan.kinds(), plan.source_list()) {
        b"MHLPLAN1"
    } else {
        b"MHLPLAN2"
    };
    code.extend_from_slice(mark)?;
    put_moment(&mut code, plan.started())?;
    put_label(&mut code, plan.name())?;
    put_label(&mut code, plan.user())?;
    put_label(&mut code, plan.host())?;
    put_choice(&mut code, plan.kinds(), plan.source_list())?;
    code.extend_from_slice(&(plan.files().len() as u32).to_be_bytes())?;
    put_files(&mut code, plan.files())?;
    Ok(code)
}

// The bytes that a source list takes.
fn source_len(source_list: Option<&PathText>) -> u64
    ensures value { result ≡ length (source_code (option_map (λ path. path.now) source_list.entry)) }
    ensures bound { result ≤ 1026 }
{
    match source_list {
        None => 2,
        Some(path) => 2 + path.as_str().len() as u64,
    }
}

// The bytes that the kinds and the source list take.
fn choice_len(kinds: Kinds, source_list: Option<&PathText>) -> u64
    ensures value { result ≡ length (choice_code kinds (option_map (λ path. path.now) source_list.entry)) }
    ensures bound { result ≤ 1027 }
{
    if is_plain(kinds, source_list) {
        return 0;
    }
    1 + source_len(source_list)
}

// The bytes that a label takes.
fn label_len(label: &Label) -> u64
    ensures value { result ≡ length (label_code label.now) }
    ensures bound { result ≤ 65 }
{
    1 + label.as_str().len() as u64
}

// The bytes that some files take.
fn files_len(files: &[PlannedFile]) -> u64
    requires { length files.now ≤ 262144 }
    ensures value { result ≡ length (flat_map file_code files.now) }
    ensures bound { result ≤ 1042 * 262144 }
{
    let mut len = 0;
    for file in files {
        len += 18 + file.path.as_str().len() as u64;
    }
    len
}

/// The length of the code of a plan in bytes, at most 38,274,266. Takes no memory.
pub fn encoded_len(plan: &Plan) -> u64
    ensures value { result ≡ length (plan_code plan.now) }
    ensures bound { result ≤ largest_code }
{
    let labels = label_len(plan.name()) + label_len(plan.user()) + label_len(plan.host());
    let choice = choice_len(plan.kinds(), plan.source_list());
    20 + labels + choice + files_len(plan.files())
}
