//! The laws of records, as contracts of functions that do nothing.
ghost use Rattle.history_records.specs.Laws.{
  ChangedCountsAreDamage,
  CutsLeaveFirstRecords,
  DamageIsNotCut,
  OneChangeOfBytes,
  OneFirstRecord,
  RecordsAreFound,
  UnconfirmedCountsAreDamage,
};

/// Bytes begin with one record at most.
pub fn one_first_record()
    ensures { OneFirstRecord }
{}

/// The records that were written are found, whatever bytes that are no record stand behind them.
pub fn records_are_found()
    ensures { RecordsAreFound }
{}

/// In a first part of what was written, a first part of the records is found, and then a record that was cut off.
pub fn cuts_leave_first_records()
    ensures { CutsLeaveFirstRecords }
{}

/// Bytes behind records are damage where they begin with no count that a check confirms.
pub fn unconfirmed_counts_are_damage()
    ensures { UnconfirmedCountsAreDamage }
{}

/// A record whose count alone was changed is damage, whatever stands behind it.
pub fn changed_counts_are_damage()
    ensures { ChangedCountsAreDamage }
{}

/// Records are not returned from bytes that are damaged.
pub fn damage_is_not_cut()
    ensures { DamageIsNotCut }
{}

/// Bytes are those of one change at most.
pub fn one_change_of_bytes()
    ensures { OneChangeOfBytes }
{}
