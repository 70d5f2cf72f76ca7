//! The rules, on lines.

ghost use Rattle.std.specs.Prelude.{◌≡◌, ◌++◌, IfOk, OnOk};
ghost use Rattle.listing_texts.specs.RuleLines.{id_line, id_lines, lines_of_rule, recipients_listing};

use crate::lines::shown_folder;
use gopass_base::{NoMemory, push_line};
use mount_table::Folder;
use path_rules::Rules;
use recipient_files::{Id, Recipients};
use std::alloc::Global;

/// For each folder that has a rule, by the bytes of their texts, a line with its text, `/` for the
/// root folder, and a line for each id of its rule, by their bytes and after two spaces.
pub fn recipients_text(alloc: Global, rules: &Rules) -> Result<Vec<u8>, NoMemory>
    ensures { IfOk result (λ text. text.items ≡ recipients_listing rules.now) }
{
    let mut text = Vec::new(alloc);
    let folders = rules.folders();
    for folder in folders {
        let Some(set) = rules.at(folder) else {
            unreachable!()
        };
        push_rule(&mut text, folder, set)?;
    }
    Ok(text)
}

fn push_rule(text: &mut Vec<u8>, folder: &Folder, set: &Recipients) -> Result<(), NoMemory>
    ensures { OnOk result (text.new.items ≡ text.old.items ++ lines_of_rule folder.now set.now) }
{
    push_line(text, shown_folder(folder).as_bytes())?;
    push_ids(text, set.ids())
}

fn push_ids(text: &mut Vec<u8>, ids: &[Id]) -> Result<(), NoMemory>
    ensures { OnOk result (text.new.items ≡ text.old.items ++ id_lines ids.now) }
{
    for id in ids {
        push_id(text, id)?;
    }
    Ok(())
}

fn push_id(text: &mut Vec<u8>, id: &Id) -> Result<(), NoMemory>
    ensures { OnOk result (text.new.items ≡ text.old.items ++ id_line id.now) }
{
    text.extend_from_slice(b"  ")?;
    push_line(text, id.text().as_bytes())
}
