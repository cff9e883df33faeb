//! Tables: a line of names, and below it the lines of each member, with tabs between the fields.

ghost use Rattle.std.specs.Prelude.{◌≡◌, ◌++◌, IfOk, OnOk, map};
ghost use Rattle.std.specs.List.{flat_map};
ghost use Rattle.vend_ports.specs.print.Printed.{table_row_of};
ghost use Rattle.desk_commands.specs.print.ListTexts.{table_text};

use std::alloc::{AllocError, Global};

/// What has lines in a table.
pub(crate) trait TableRow {
    ghost use Rattle.std.specs.Prelude.{◌≡◌, ◌++◌, OnOk};
    ghost use Rattle.sts_fields.specs.Text.{Text};

    ghost lines: { Self → Text };

    /// Adds its lines to a text.
    fn put(&self, alloc: Global, text: &mut Vec<u8>) -> Result<(), AllocError>
        ensures { OnOk result (text.new.items ≡ text.old.items ++ lines self.now) };
}

/// The text of a table, behind the names of its fields where these are asked for.
pub(crate) fn table<M: TableRow>(
    alloc: Global,
    named: bool,
    names: &[&[u8]],
    members: &[M],
) -> Result<Vec<u8>, AllocError>
    ensures { IfOk result (λ text. text.items
        ≡ table_text named (map (λ name. name.now) names.now) (flat_map M.lines members.now)) }
{
    let mut text = Vec::new(alloc);
    if named {
        put_fields(&mut text, names)?;
    }
    put_members(alloc, &mut text, members)?;
    Ok(text)
}

// Adds the lines of members.
fn put_members<M: TableRow>(
    alloc: Global,
    text: &mut Vec<u8>,
    members: &[M],
) -> Result<(), AllocError>
    ensures { OnOk result (text.new.items ≡ text.old.items ++ flat_map M.lines members.now) }
{
    for member in members {
        member.put(alloc, text)?;
    }
    Ok(())
}

/// Adds fields on a line, with a tab between each two.
pub(crate) fn put_fields(text: &mut Vec<u8>, fields: &[&[u8]]) -> Result<(), AllocError>
    ensures { OnOk result (text.new.items
        ≡ text.old.items ++ table_row_of (map (λ field. field.now) fields.now)) }
{
    let mut separator: &[u8] = b"";
    for field in fields {
        text.extend_from_slice(separator)?;
        text.extend_from_slice(field)?;
        separator = b"\t";
    }
    text.extend_from_slice(b"\n")
}
