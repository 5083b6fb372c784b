//! Reading of words as those of the command with a given name.
ghost use Rattle.std.specs.Prelude.{map, string_bytes};
ghost use Rattle.sym_model.specs.Grammar.{all_entries};
ghost use Rattle.calc_words.specs.ReadParts.{entry_named};
ghost use Rattle.calc_language.specs.Reading.{IsReadAs};

use crate::Command;
use crate::expand::read_expand;
use crate::pairs::read_unrsk;
use crate::plethysm_command::read_plethysm;
use crate::skew_tableaux::read_rect;
use crate::tab::read_tab;
use calc_base::WordsFault;
use calc_words::batches::{read_batch, read_work};
use calc_words::permutations::{
    read_dschubmult, read_growth, read_rsk, read_schubert, read_schubmult, read_stanley,
};
use calc_words::products::{read_coef, read_coprod, read_mult, read_skew};
use calc_words::reductions::{read_fusion, read_quantum};
use calc_words::syntax;
use std::alloc::Global;

/// Reads the words as those of the command of this name; if there is no such command, refuses them
/// with an error of syntax at byte 0 of the first word.
pub(crate) fn by_name(alloc: Global, name: &str, words: &[String]) -> Result<Command, WordsFault>
    ensures { IsReadAs (entry_named name.now all_entries) (map string_bytes words.now) result }
{
    match name {
        "mult" => read_mult(alloc, words),
        "skew" => read_skew(alloc, words),
        "coef" => read_coef(alloc, words),
        "coprod" => read_coprod(alloc, words),
        "tab" => read_tab(alloc, words),
        "quantum" => read_quantum(alloc, words),
        "fusion" => read_fusion(alloc, words),
        "schubert" => read_schubert(alloc, words),
        "schubmult" => read_schubmult(alloc, words),
        "expand" => read_expand(alloc, words),
        "rsk" => read_rsk(alloc, words),
        "unrsk" => read_unrsk(alloc, words),
        "rect" => read_rect(alloc, words),
        "growth" => read_growth(alloc, words),
        "plethysm" => read_plethysm(alloc, words),
        "dschubmult" => read_dschubmult(alloc, words),
        "stanley" => read_stanley(alloc, words),
        "batch" => read_batch(words),
        "work" => read_work(words),
        _ => Err(syntax(0, 0)),
    }
}
