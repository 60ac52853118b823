//! Plans: what an offload copies, who offloads it, and what its lists show.

ghost use Rattle.std.specs.Prelude.{◌≡◌, ◌<◌, true, length, slice_index_or, option_copied, IfSome, IfNone, MatchBool};
ghost use Rattle.std.specs.List.{AllByRecursion};
ghost use Rattle.path_text.specs.Kinds.{has_kind};
ghost use Rattle.copy_plan.specs.declared.file.PlannedFile.{PlannedFile};
ghost use Rattle.copy_plan.specs.Plan.{IsPlan, IsSourceList, Clears, list_of};
ghost use Rattle.copy_plan.specs.Made.{ClashesWith, IsFirstInTheWay, MakeGives};

use crate::file::PlannedFile;
use crate::inventory::{Inventory, take_path};
use path_text::{Kinds, Label, Moment, PathText, ancestor_of, list_name};
use std::alloc::Global;
use std::marker::Model;
use thiserror::Error;

/// Why no plan was made.
#[derive(Debug, Drop, Error)]
pub enum PlanMakeError {
    #[error("a path clashes with the name of the list")]
    Clash { list: PathText, path: PathText },
    #[error("out of memory")]
    Memory,
}

/// A plan of an offload, seen as its labels (the card, the user and the host), its start, the kinds of digest that its
/// lists show, the list that its files were taken from, if there is one, and the files of its inventory.
///
/// It has at least one kind. A source list has one part and is no control path. The name of its list, which follows
/// from its name and its start, is neither the path of a file nor an ancestor of one (docs/FORMATS.md, "Plans").
#[derive(Debug, Drop)]
pub struct Plan {
    name: Label,
    user: Label,
    host: Label,
    started: Moment,
    kinds: Kinds,
    source_list: Option<PathText>,
    list: PathText,
    files: Vec<PlannedFile>,
}

impl Model for Plan {
    ghost use Rattle.copy_plan.specs.Plan.{PlanValue};

    ghost Value = { PlanValue };

    ghost use Rattle.copy_plan.specs.Parts.{plan_of, IsWhole};

    ghost view = { plan_of };

    ghost invariant = { IsWhole };
}

impl Plan {
    /// The plan of these parts. `Clash` comes exactly where the name of its list is a file's path or an ancestor of
    /// one, with the least such path.
    pub fn make(
        alloc: Global,
        name: Label,
        user: Label,
        host: Label,
        started: Moment,
        kinds: Kinds,
        source_list: Option<PathText>,
        inventory: Inventory,
    ) -> Result<Plan, PlanMakeError>
        requires some { has_kind kinds ≡ true }
        requires source { IfSome source_list IsSourceList }
        ensures { MakeGives (record { name = name; user = user; host = host; started = started; kinds = kinds; source_list = source_list; files = inventory }) result }
    {
        // What is known of every label and every moment.
        let _name = name.as_str();
        let _user = user.as_str();
        let _host = host.as_str();
        let _start = started.seconds();
        let Ok(list) = list_name(alloc, &name, started) else {
            return Err(PlanMakeError::Memory);
        };
        let mut files = inventory.into_files();
        if let Some(at) = first_in_the_way(&list, &files) {
            let path = take_path(&mut files, at);
            return Err(PlanMakeError::Clash { list, path });
        }
        Ok(Plan::of_parts(name, user, host, started, kinds, source_list, list, files))
    }

    // The plan of parts that are known to keep all rules, with the name of its list.
    pub(crate) fn of_parts(
        name: Label,
        user: Label,
        host: Label,
        started: Moment,
        kinds: Kinds,
        source_list: Option<PathText>,
        list: PathText,
        files: Vec<PlannedFile>,
    ) -> Plan
        requires plan { IsPlan (record { name = name; user = user; host = host; started = started; kinds = kinds; source_list = source_list; files = files.items }) }
        requires list { list ≡ list_of (record { name = name; user = user; host = host; started = started; kinds = kinds; source_list = source_list; files = files.items }) }
        ensures { result ≡ record { name = name; user = user; host = host; started = started; kinds = kinds; source_list = source_list; files = files.items } }
    {
        Plan {
            name,
            user,
            host,
            started,
            kinds,
            source_list,
            list,
            files,
        }
    }

    /// The name of the card.
    pub fn name(&self) -> &Label
        ensures { result.now ≡ self.now.name }
    {
        &self.name
    }

    /// Who offloads it.
    pub fn user(&self) -> &Label
        ensures { result.now ≡ self.now.user }
    {
        &self.user
    }

    /// The machine that it is offloaded on.
    pub fn host(&self) -> &Label
        ensures { result.now ≡ self.now.host }
    {
        &self.host
    }

    /// When the offload started.
    pub fn started(&self) -> Moment
        ensures { result ≡ self.now.started }
    {
        self.started
    }

    /// The kinds of digest that its lists show.
    pub fn kinds(&self) -> Kinds
        ensures { result ≡ self.now.kinds }
    {
        self.kinds
    }

    /// The list that its files were taken from.
    pub fn source_list(&self) -> Option<&PathText>
        ensures { option_copied result ≡ self.now.source_list }
    {
        self.source_list.as_ref()
    }

    /// The name of its list (docs/FORMATS.md, "List names").
    pub fn list(&self) -> &PathText
        ensures { result.now ≡ list_of self.now }
    {
        &self.list
    }

    /// The files of its inventory.
    pub fn files(&self) -> &[PlannedFile]
        ensures same { result.now ≡ self.now.files }
        ensures plan { IsPlan self.now }
    {
        &self.files
    }

    /// The path of one of its files, counted from 0.
    pub fn into_path(self, index: u32) -> PathText
        requires { index < length self.files }
        ensures { (f : PlannedFile) → result ≡ (slice_index_or self.files index f).path }
    {
        let mut files = self.files;
        take_path(&mut files, index as usize)
    }

    /// The name of its list, given away.
    pub fn into_list(self) -> PathText
        ensures { result ≡ list_of self }
    {
        self.list
    }
}

// Whether a file does not clash with a list of this name.
fn clears(list: &PathText, file: &PlannedFile) -> bool
    ensures { MatchBool result (Clears list.now file.now) (ClashesWith list.now file.now) }
{
    !(file.path == *list || ancestor_of(list, &file.path))
}

// The first file that clashes with a list of this name.
fn first_in_the_way(list: &PathText, files: &[PlannedFile]) -> Option<usize>
    ensures found { IfSome result (λ at. IsFirstInTheWay list.now files.now at) }
    ensures none { IfNone result (AllByRecursion (Clears list.now) files.now) }
{
    for at in 0..files.len() {
        if !clears(list, &files[at]) {
            return Some(at);
        }
    }
    None
}

#[cfg(test)]
mod tests {
    use super::*;
    use std::test::Fail;

    // 2014-10-24T12:00:00Z.
    const NOON: u64 = 1_414_152_000;

    fn inventory_of(alloc: Global, paths: &[&str]) -> Result<Inventory, Fail> {
        let mut files = Vec::new(alloc);
        for path in paths {
            files.push(PlannedFile {
                path: PathText::read(alloc, path)?,
                size: 3,
                modified: Moment::new(NOON).ok_or("a moment")?,
            })?;
        }
        Ok(Inventory::build(files)?)
    }

    // The plan of these files on the card A001, or what makes it none.
    fn planned(alloc: Global, paths: &[&str]) -> Result<Result<Plan, PlanMakeError>, Fail> {
        let inventory = inventory_of(alloc, paths)?;
        let kinds = Kinds {
            md5: true,
            sha1: false,
            xxh: true,
        };
        Ok(Plan::make(
            alloc,
            Label::read("A001")?,
            Label::read("ana")?,
            Label::read("cart1")?,
            Moment::new(NOON).ok_or("a moment")?,
            kinds,
            None,
            inventory,
        ))
    }

    #[test]
    fn makes_plans(rt: HostRuntime) -> Result<(), Fail> {
        let plan = planned(rt.alloc(), &["b.mov", "a.mov"])??;
        assert_eq!(rt; plan.name().as_str(), "A001");
        assert_eq!(rt; plan.user().as_str(), "ana");
        assert_eq!(rt; plan.host().as_str(), "cart1");
        assert_eq!(rt; plan.started().seconds(), NOON);
        assert!(rt; plan.kinds().md5 && !plan.kinds().sha1 && plan.kinds().xxh);
        assert!(rt; plan.source_list().is_none());
        assert_eq!(rt; plan.list().as_str(), "A001_2014-10-24_120000.mhl");
        assert_eq!(rt; plan.files().len(), 2);
        let second = plan.into_path(1);
        assert_eq!(rt; second.as_str(), "b.mov");
        let list = planned(rt.alloc(), &["a"])??.into_list();
        assert_eq!(rt; list.as_str(), "A001_2014-10-24_120000.mhl");
        Ok(())
    }

    #[test]
    fn knows_its_source_list(rt: HostRuntime) -> Result<(), Fail> {
        let inventory = inventory_of(rt.alloc(), &["a"])?;
        let source = PathText::read(rt.alloc(), "B002_2014-10-23_090000.mhl")?;
        assert_eq!(rt; source.as_str(), "B002_2014-10-23_090000.mhl");
        assert!(rt; path_text::has_one_part(&source));
        assert!(rt; !path_text::is_control(&source));
        let all = Kinds {
            md5: true,
            sha1: true,
            xxh: true,
        };
        let started = Moment::new(NOON).ok_or("a moment")?;
        let label = Label::read("A001")?;
        let plan = Plan::make(
            rt.alloc(),
            label,
            label,
            label,
            started,
            all,
            Some(source),
            inventory,
        )?;
        let found = plan.source_list().ok_or("a source list")?;
        assert_eq!(rt; found.as_str(), "B002_2014-10-23_090000.mhl");
        Ok(())
    }

    #[test]
    fn refuses_files_in_the_way_of_the_list(rt: HostRuntime) -> Result<(), Fail> {
        let table: [(&[&str], &str); 5] = [
            (
                &["A001_2014-10-24_120000.mhl"],
                "A001_2014-10-24_120000.mhl",
            ),
            (
                &[
                    "z",
                    "A001_2014-10-24_120000.mhl/y",
                    "A001_2014-10-24_120000.mhl/x",
                    "A",
                ],
                "A001_2014-10-24_120000.mhl/x",
            ),
            (
                &[
                    "A001_2014-10-24_120000.mhl-x",
                    "a/A001_2014-10-24_120000.mhl",
                ],
                "",
            ),
            (
                &["A001_2014-10-24_120000.mh/l", "A001_2014-10-24_120000.mhl0"],
                "",
            ),
            (
                &[
                    "A001_2014-10-24_120000.mhl-",
                    "A001_2014-10-24_120000.mhl/-",
                ],
                "A001_2014-10-24_120000.mhl/-",
            ),
        ];
        for (paths, wanted) in table {
            match planned(rt.alloc(), paths)? {
                Ok(plan) => assert_eq!(rt; wanted, "", "at {plan:?}"),
                Err(PlanMakeError::Clash { list, path }) => {
                    assert_eq!(rt; list.as_str(), "A001_2014-10-24_120000.mhl");
                    assert_eq!(rt; path.as_str(), wanted);
                }
                Err(PlanMakeError::Memory) => assert!(rt; false),
            }
        }
        Ok(())
    }
}
