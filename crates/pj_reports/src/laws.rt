//! The laws of the texts, each the contract of a call that does nothing.
ghost use Rattle.std.specs.Prelude.{◌≡◌, ◌∷◌, suc, length};
ghost use Rattle.csv.specs.Reading.{default_config, records_from};
ghost use Rattle.csv.specs.declared.parser.State.TheVariants as state;
ghost use Rattle.pj_reports.specs.ReportText.{csv_header, csv_report, joined, text_report};
ghost use Rattle.pj_reports.specs.Shown.{problems};
ghost use Rattle.pj_reports.specs.TextRows.{numbered_fields, text_lines};
ghost use Rattle.pj_reports.specs.declared.report.Report.{Report};

/// The text is one line for each row that it shows.
pub fn text_is_its_lines()
    ensures { (report : Report) → text_report report ≡ joined (text_lines report) }
{}

/// What a CSV reader gets back of the CSV text is the header, and then the fields of each finding that is reported.
pub fn csv_reads_back()
    ensures { (report : Report) → records_from default_config (suc (length (problems report.files))) state.StartRecord (csv_report report) ≡ csv_header ∷ numbered_fields report.rules 1 (problems report.files) }
{}
