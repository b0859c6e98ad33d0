// What the definitions of the sheets come to. Each function's contract is a theorem.
ghost use Rattle.sheets.specs.Laws.{LinesWhole, LinesCut, FieldsCut, ReadsGood, OneFault, JoinsBack, JoinsOnly};
ghost use Rattle.sheets.specs.Nets.{NetsCut, NetsWhole, ReadsRising};
ghost use Rattle.sheets.specs.Rows.{join_row, rail_row, part_row, join_names, rail_names, part_names};
ghost use Rattle.sheets.specs.Wrongs.{JoinsLeast, PartsLeast, RailsLeast, ValuesExact};

// A sheet is cut into lines, and a line into fields, without loss.
pub fn lines_are_whole()
    ensures { LinesWhole × LinesCut × FieldsCut }
{}

// The sheets that are read are just those of a names line and one good line for each row.
pub fn good_sheets_are_read()
    ensures { ReadsGood part_row part_names × ReadsGood join_row join_names × ReadsGood rail_row rail_names }
{}

// Joins that are written are read back, and a joins sheet that is read is written from its rows.
pub fn joins_are_read_back()
    ensures { JoinsBack × JoinsOnly }
{}

// A fault is that of the whole sheet, of its names line, or of its first bad line.
pub fn faults_are_first()
    ensures { OneFault part_row part_names × OneFault join_row join_names × OneFault rail_row rail_names }
{}

// A line's fault has the smallest number of all that is wrong with the line, at its smallest place.
pub fn line_faults_are_least()
    ensures { JoinsLeast × PartsLeast × RailsLeast }
{}

// A value, as a float, is just its number.
pub fn values_are_exact()
    ensures { ValuesExact }
{}

// The ends cut the joins into the parts of each net's rows; the ends do not fall, and the last is the number of joins.
pub fn nets_are_cut()
    ensures { NetsCut × NetsWhole × ReadsRising }
{}
