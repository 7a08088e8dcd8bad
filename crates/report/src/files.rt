// What an answer is about: the files, and what they give.
ghost use Rattle.std.specs.Prelude.{◌≡◌, []};
ghost use Rattle.diagnosis.specs.Reasons.{diagnosis};

use diagnosis::Reason;
use page::Page;
use std::fmt;
use table::Refusal;

// The file of a case; or of a rule, and that of its setting.
#[derive(Clone, Copy)]
pub struct Files<'a> {
    pub path: &'a [u8],
    pub setting: Option<&'a [u8]>,
}

impl Files<'_> {
    pub fn put_title(self, page: &mut Page) -> fmt::Result {
        page.put_all(self.path)?;
        if let Some(setting) = self.setting {
            page.put(b' ')?;
            page.put_all(setting)?;
        }
        Ok(())
    }
}

// A table with its sheet and its setting.
#[derive(Clone, Copy)]
pub struct Given<'a> {
    pub table: &'a [u32],
    pub sheet: &'a [u32],
    pub values: &'a [u32],
    pub cells: &'a [u32],
    pub allowance: u64,
}

impl<'a> Given<'a> {
    // A table alone.
    pub fn of_table(table: &'a [u32]) -> Given<'a>
        ensures table { result.table.now ≡ table.now }
        ensures sheet { result.sheet.now ≡ [] }
        ensures values { result.values.now ≡ [] }
        ensures cells { result.cells.now ≡ [] }
        ensures allowance { result.allowance ≡ 0 }
    {
        Given {
            table,
            sheet: &[],
            values: &[],
            cells: &[],
            allowance: 0,
        }
    }

    // The reason for a refusal.
    pub fn reason(self, r: Refusal) -> Option<Reason>
        ensures { result ≡ diagnosis self.entry.table.now self.entry.sheet.now self.entry.values.now
            self.entry.cells.now self.entry.allowance r.number r.place }
    {
        diagnosis::diagnose(
            self.table,
            self.sheet,
            self.values,
            self.cells,
            self.allowance,
            r.number,
            r.place,
        )
    }
}
