// Lists of names.
ghost use Rattle.std.specs.Prelude.{◌≡◌, ◌++◌, ◌∷◌, [], IfOk, OnOk, bytes_eq};
ghost use Rattle.std.specs.List.{list_any};
ghost use Rattle.lilo_model.specs.Conf.{has_name};
ghost use Rattle.lilo_model.specs.ConfLawful.{names_of_section};
ghost use Rattle.lilo_conf.specs.View.{section_view};
ghost use Rattle.map_plan.specs.Sections.{planned_views};
ghost use Rattle.map_plan.specs.Names.{names_of};

use crate::section::PlannedSection;
use conf_text::Text;
use lilo_conf::Section;
use std::alloc::{AllocError, Global};
use std::marker::Model;

/// Names, in order. To a contract it is the list of them.
#[derive(Drop)]
pub struct NameList {
    names: Vec<Text>,
}

impl Model for NameList {
    ghost use Rattle.std.specs.Prelude.{ℕ, List};

    ghost Value = { List (List ℕ) };

    ghost view = { λ list. list.names.items };
}

impl NameList {
    ghost use Rattle.std.specs.Prelude.{◌≡◌};

    /// The list of these.
    pub fn new(items: Vec<Text>) -> NameList
        ensures { result ≡ items.items }
    {
        NameList { names: items }
    }

    /// The names.
    pub fn items(&self) -> &[Text]
        ensures { result.now ≡ self.now }
    {
        self.names.as_slice()
    }
}

// The names of the sections that aren't omitted, in order.
pub(crate) fn names_of(alloc: Global, sections: &[PlannedSection]) -> Result<NameList, AllocError>
    ensures { IfOk result (λ names. names ≡ names_of (planned_views sections.now)) }
{
    let mut names = Vec::new(alloc);
    for planned in sections {
        add_names(alloc, &planned.section, &mut names)?;
    }
    Ok(NameList::new(names))
}

// Adds those of a section.
#[tactic(auto, unfolding(lilo_model::specs::ConfLawful::names_of_section))]
fn add_names(alloc: Global, section: &Section, names: &mut Vec<Text>) -> Result<(), AllocError>
    ensures { OnOk result (names.new.items ≡ names.old.items ++ names_of_section (section_view section.now)) }
{
    let label = Text::new(alloc, section.label.bytes())?;
    names.push(label)?;
    if let Some(alias) = &section.alias {
        let alias = Text::new(alloc, alias.bytes())?;
        names.push(alias)?;
    }
    Ok(())
}

// Whether a name is among some.
pub(crate) fn has_name(name: &[u8], names: &[Text]) -> bool
    ensures { result ≡ has_name name.now names.now }
{
    names.iter().any(|other| other.bytes() == name)
}
