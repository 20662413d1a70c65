//! Laws of the language of conditions, over its definitions alone. A caller of one of these functions,
//! which do nothing, may use what it ensures.

ghost use Rattle.std.specs.Prelude.{◌≡◌, ◌↔◌, ◌⊎◌, ℕ, Bool, true, false, List, [], Some, None, Contains};
ghost use Rattle.gx_base.specs.declared.kinds.Kind.{Kind};
ghost use Rattle.gx_base.specs.Conditions.{Condition};
ghost use Rattle.gx_base.specs.TableRows.{RowMap, row_of};
ghost use Rattle.gx_base.specs.Tables.{Rows};
ghost use Rattle.cond_syntax.specs.Tokens.{Token, tokens_in};
ghost use Rattle.cond_syntax.specs.WrittenConditions.{WrittenCondition, condition_in};
ghost use Rattle.cond_syntax.specs.Grammar.{IsCondition};
ghost use Rattle.cond_syntax.specs.Fronts.{all_known};
ghost use Rattle.cond_syntax.specs.TableTexts.{Spells, IsTableText, Fault, IsFirstFault};
ghost use Rattle.cond_syntax.specs.Printing.{condition_text, table_text};
ghost use Rattle.cond_syntax.specs.Printable.{IsPrintable, IsPrintableTable, IsReadBack};

/// Tokens spell one condition at most.
pub fn tokens_spell_one_condition()
    ensures { (ts : List Token) (c d : WrittenCondition) → IsCondition ts [] c → IsCondition ts [] d → c ≡ d }
{}

/// A spelled condition has a meaning for a kind exactly where each word of its tokens is known there.
pub fn known_words_mean_a_condition()
    ensures known { (kind : ℕ) (ts : List Token) (c : WrittenCondition) → IsCondition ts [] c → all_known kind false ts ≡ true → (d : Condition) × (condition_in kind c ≡ Some d) }
    ensures unknown { (kind : ℕ) (ts : List Token) (c : WrittenCondition) → IsCondition ts [] c → all_known kind false ts ≡ false → condition_in kind c ≡ None }
{}

/// Bytes are the text of one table at most.
pub fn a_text_is_of_one_table()
    ensures { (wanted : List Kind) (bytes : List ℕ) (kind other : Kind) (rows others : RowMap) → IsTableText wanted bytes kind rows → IsTableText wanted bytes other others → (kind ≡ other) × (rows ≡ others) }
{}

/// The text of a table has no first fault.
pub fn a_table_has_no_fault()
    ensures { (wanted : List Kind) (bytes : List ℕ) (kind : Kind) (rows : RowMap) (line : ℕ) (fault : Fault) → IsTableText wanted bytes kind rows → IsFirstFault wanted bytes line fault → ⊥ }
{}

/// Bytes have one first fault at most.
pub fn a_text_has_one_first_fault()
    ensures { (wanted : List Kind) (bytes : List ℕ) (line number : ℕ) (fault other : Fault) → IsFirstFault wanted bytes line fault → IsFirstFault wanted bytes number other → (line ≡ number) × (fault ≡ other) }
{}

/// Bytes are the text of a table, or have a first fault.
pub fn each_text_is_a_table_or_has_a_first_fault()
    ensures { (wanted : List Kind) (bytes : List ℕ) → ((kind : Kind) × (rows : RowMap) × IsTableText wanted bytes kind rows) ⊎ ((line : ℕ) × (fault : Fault) × IsFirstFault wanted bytes line fault) }
{}

/// The tokens of what is printed of a condition spell it, where it is one that can be printed (`IsPrintable`).
pub fn printed_conditions_are_read_back()
    ensures { (kind : Kind) (c : Condition) → IsPrintable kind c → Spells kind (tokens_in (condition_text c)) c }
{}

/// What is printed of a table that can be printed (`IsPrintableTable`) is the text of a table with its rows, wherever
/// its kind is wanted.
pub fn printed_tables_are_read_back()
    ensures { (kind : Kind) (rows : Rows) → IsPrintableTable kind rows → (wanted : List Kind) → Contains wanted kind → IsReadBack wanted (table_text kind rows) kind rows }
{}

/// A table that was read is one of those that are read back from what is printed of them.
pub fn read_tables_are_printable()
    ensures { (wanted : List Kind) (bytes : List ℕ) (kind : Kind) (rows : RowMap) → IsTableText wanted bytes kind rows → IsPrintableTable kind (row_of rows) }
{}

/// The kind of a table that was read is one of those that were wanted.
pub fn read_tables_are_of_wanted_kinds()
    ensures { (wanted : List Kind) (bytes : List ℕ) (kind : Kind) (rows : RowMap) → IsTableText wanted bytes kind rows → Contains wanted kind }
{}
