//! The labels of a procedure, with their positions.
ghost use Rattle.std.specs.Prelude.{◌≡◌, ◌++◌, ◌∷◌, [], None, OnOk, IfErr};
ghost use Rattle.tatp_asm.specs.Reading.{position_of};
ghost use Rattle.tatp_asm.specs.Views.{labels_view};

use crate::fault::AsmError;
use indexmap::IndexMap;
use std::alloc::Global;

/// Labels in the order of their lines, each with the number of instructions before it.
pub(crate) type Labels = IndexMap<String, u32>;

/// The place of a label.
pub(crate) fn position_of(labels: &Labels, label: &str) -> Option<u32>
    ensures { result ≡ position_of (labels_view labels.now.entries) label.now }
{
    labels.get(label).copied()
}

/// Puts in a label that isn't there yet.
#[tactic(auto, using(crate::proofs::LabelLaws::insert_label))]
pub(crate) fn put_label(
    alloc: Global,
    labels: &mut Labels,
    label: &str,
    position: u32,
) -> Result<(), AsmError>
    requires { position_of (labels_view labels.old.entries) label.now ≡ None }
    ensures ok { OnOk result (labels_view labels.new.entries
        ≡ labels_view labels.old.entries ++ ((label.now, position) ∷ [])) }
    ensures err { IfErr result (λ e. e ≡ AsmError.NoMemory) }
{
    let label = String::from_str(alloc, label)?;
    labels.insert(label, position)?;
    Ok(())
}
