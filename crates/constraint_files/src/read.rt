ghost use Rattle.std.specs.Prelude.{◌≡◌, ok_or, IfOk};
ghost use Rattle.toml.specs.View.{table_view};
ghost use Rattle.constraint_file_spec.specs.declared.fault.ConstraintFault.TheVariants.{NotToml};
ghost use Rattle.constraint_file_spec.specs.ConstraintFile.{document_of, checked_parts, ReadsConstraint};
ghost use Rattle.constraint_file_spec.specs.Refusals.{state_names};
ghost use Rattle.constraint_files.specs.inside.Steps.{Answers, listed_data};

use crate::build::build;
use crate::checks::{
    check_keys, check_labels, check_range, check_runs, check_word_count, check_words,
};
use crate::names::number_states;
use crate::parts::{ListedParts, list_parts};
use constraint_file_spec::{ConstraintFault, Key};
use constraint_model::Constraint;
use indexmap::IndexSet;
use std::alloc::Global;
use symbol_base::ByteList;
use toml::Table;

/// The constraint that a constraint file lists.
///
/// The file is a table in TOML with at most the five keys of `Key`. Where it is refused, the fault
/// is the first refusal that holds, in the order of `ConstraintFault`; only want of memory may come
/// in its place.
pub fn read_constraint(alloc: Global, bytes: &[u8]) -> Result<Constraint, ConstraintFault>
    ensures { ReadsConstraint bytes.now result }
{
    let table = read_table(alloc, bytes)?;
    check_keys(alloc, &table)?;
    let file = list_parts(alloc, &table)?;
    let names = check_parts(alloc, &file)?;
    Ok(build(alloc, &file, &names)?)
}

#[tactic(auto, using(crate::proofs::Tables::document_read, crate::proofs::Tables::document_refused))]
fn read_table(alloc: Global, bytes: &[u8]) -> Result<Table, ConstraintFault>
    ensures { Answers table_view result (ok_or (document_of bytes.now) NotToml) }
{
    match toml::table_from_slice(alloc, bytes) {
        Ok(table) => Ok(table),
        Err(error) if error.is_memory() => Err(ConstraintFault::NoMemory),
        Err(_) => Err(ConstraintFault::NotToml),
    }
}

/// The names of the states of a file whose numbers are in range and whose counts and digits are in
/// order.
fn check_parts(alloc: Global, file: &ListedParts) -> Result<IndexSet<ByteList>, ConstraintFault>
    ensures names { IfOk result (λ names. names.keys ≡ state_names file.now.edges.items) }
    ensures checked { Answers (λ _. listed_data file.now) result
        (checked_parts (listed_data file.now)) }
{
    check_range(Key::Alphabet, file.alphabet)?;
    check_range(Key::D, file.d)?;
    check_range(Key::K, file.k)?;
    check_runs(file.d, file.k)?;
    check_word_count(&file.forbid)?;
    let names = number_states(alloc, &file.edges)?;
    check_words(&file.forbid)?;
    check_labels(&file.edges)?;
    Ok(names)
}
