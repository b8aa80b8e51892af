//! What the definitions of dispatch tables mean: laws, with nothing to run.

ghost use Rattle.std.specs.Prelude.{◌≡◌, ℕ, ◌*◌, ◌≤◌, ◌↔◌, ◌⊎◌, List, length, IsTrue};
ghost use Rattle.sd_types.specs.declared.tables.TsTable.{TsTable};
ghost use Rattle.sd_types.specs.declared.tables.FixedTable.{FixedTable};
ghost use Rattle.sd_types.specs.Ticks.{ticks_of, ts_ticks_fit, fixed_ticks_fit};
ghost use Rattle.sd_dispadmin.specs.declared.fault.TableFault.{TableFault};
ghost use Rattle.sd_dispadmin.specs.TableText.{Format, ts_format, fx_format, rt_format, IsTableFault, IsTableText, SpellsTs, SpellsFixed};
ghost use Rattle.sd_dispadmin.specs.TableSpelling.{ts_text, fixed_text};

/// The ticks of a quantum are the least number that lasts as long: the quotient, rounded up.
pub fn ticks_are_the_ceiling()
    ensures { (quantum hz res n : ℕ) → 1 ≤ res → (ticks_of quantum hz res ≤ n) ↔ (quantum * hz ≤ n * res) }
{}

/// Each text is a table file of a class or has a fault, and never both; and it has one fault alone.
pub fn texts_have_one_answer()
    ensures one { (format : Format) (text : List ℕ) → IsTableText format text ⊎ ((fault : TableFault) × IsTableFault format text fault) }
    ensures never_both { (format : Format) (text : List ℕ) (fault : TableFault) → IsTableText format text → IsTableFault format text fault → ⊥ }
    ensures same { (format : Format) (text : List ℕ) (a b : TableFault) → IsTableFault format text a → IsTableFault format text b → a ≡ b }
{}

/// Each text spells a table of the class, at each hz, or has a fault.
pub fn texts_spell_tables()
    ensures ts { (text : List ℕ) (hz : ℕ) → 1 ≤ hz
        → ((t : TsTable) × SpellsTs text hz t) ⊎ ((fault : TableFault) × IsTableFault ts_format text fault) }
    ensures fx { (text : List ℕ) (hz : ℕ) → 1 ≤ hz
        → ((t : FixedTable) × SpellsFixed fx_format text hz t) ⊎ ((fault : TableFault) × IsTableFault fx_format text fault) }
    ensures rt { (text : List ℕ) (hz : ℕ) → 1 ≤ hz
        → ((t : FixedTable) × SpellsFixed rt_format text hz t) ⊎ ((fault : TableFault) × IsTableFault rt_format text fault) }
{}

/// A table file spells one table.
pub fn spellings_have_one_table()
    ensures ts { (text : List ℕ) (hz : ℕ) (a b : TsTable) → SpellsTs text hz a → SpellsTs text hz b → (a.res ≡ b.res) × (a.rows ≡ b.rows) }
    ensures fixed { (format : Format) (text : List ℕ) (hz : ℕ) (a b : FixedTable) → SpellsFixed format text hz a → SpellsFixed format text hz b
        → (a.res ≡ b.res) × (a.rows ≡ b.rows) }
{}

/// The text that is written of a table spells it, at each hz at which its ticks are those of its quanta; so it is
/// read again as this table.
pub fn written_tables_are_spelled()
    ensures ts { (hz : ℕ) (t : TsTable) → IsTrue (ts_ticks_fit hz t) → SpellsTs (ts_text t) hz t }
    ensures fx { (hz : ℕ) (t : FixedTable) → IsTrue (fixed_ticks_fit hz t) → SpellsFixed fx_format (fixed_text t) hz t }
    ensures rt { (hz : ℕ) (t : FixedTable) → IsTrue (fixed_ticks_fit hz t) → length t.rows ≤ 60 → SpellsFixed rt_format (fixed_text t) hz t }
{}
