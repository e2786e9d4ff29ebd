ghost use Rattle.std.specs.Prelude.{◌≡◌, ◌≤◌, not, is_some};
ghost use Rattle.steps.specs.Wares.{one_if};
ghost use Rattle.steps.specs.Goods.{goods_in};
ghost use Rattle.books.specs.Ledger.{ledger};
ghost use Rattle.books.specs.Changes.{owners_in};
ghost use Rattle.books.specs.Owners.{foreign_at, differs_at, Surveyed};

use crate::books::Books;
use crate::survey::Survey;
use base::{FileKind, ShortText};
use package::Package;
use status::Owned;
use steps::same_name;

// What the owner of one path says.
fn survey_one(owner: Option<Owned>, name: ShortText, kind: FileKind) -> Survey
    ensures foreign { result.foreign ≡ foreign_at name owner }
    ensures differing { result.differing ≡ differs_at kind owner }
    ensures fresh { result.fresh ≡ one_if (not (is_some owner)) }
    ensures small { result.fresh ≤ 1 }
{
    match owner {
        Some(row) => Survey {
            foreign: !same_name(row.owner, name),
            differing: row.kind != kind,
            fresh: 0,
        },
        None => Survey {
            foreign: false,
            differing: false,
            fresh: 1,
        },
    }
}

impl<'a> Books<'a> {
    // What the owners say of the package's files.
    pub fn survey(&self, name: ShortText, new: &Package<'_>) -> Survey
        ensures { Surveyed name (owners_in (ledger self.now).owners) (goods_in new.now.words.now).files result }
    {
        let mut survey = Survey {
            foreign: false,
            differing: false,
            fresh: 0,
        };
        for file in new.files() {
            let here = survey_one(self.owner(file.path), name, file.kind);
            survey.foreign |= here.foreign;
            survey.differing |= here.differing;
            survey.fresh += here.fresh;
        }
        survey
    }
}
