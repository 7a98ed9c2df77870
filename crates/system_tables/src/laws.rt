//! What is so of the tables.
#![tactic(auto)]

ghost use Rattle.system_tables.specs.Laws.{TablesAreApart, CrcsAreRight, FieldsReadBack, NumbersReadBack, OthersStay, CrcsAreWrittenAlone, CrcsStayRight};

/// The fields of each table lie in it, one behind the other and none over its CRC, and the tables of a page are
/// apart.
pub fn tables_are_apart()
    ensures { TablesAreApart }
{}

/// At opening the CRC of each table is that of its bytes with 0 in the place of the CRC: UEFI 2.10, 4.2.
pub fn crcs_are_right()
    ensures { CrcsAreRight }
{}

/// Fields that are written in order all hold their numbers then, and each byte of no field stays; a new CRC
/// changes no byte but its own.
pub fn fields_read_back()
    ensures fields { FieldsReadBack }
    ensures numbers { NumbersReadBack }
    ensures others { OthersStay }
    ensures crcs { CrcsAreWrittenAlone }
{}

/// Whatever a guest has written to the system page, its CRCs are right after clearing and after moving: that of
/// the system table, and after moving that of the runtime services too, which clearing leaves as it was.
pub fn crcs_stay_right()
    ensures { CrcsStayRight }
{}
