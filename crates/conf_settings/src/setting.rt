// Settings: options with what comes after them.
use crate::option::Opt;
use crate::reason::ConfFault;
use conf_text::Text;
use std::alloc::{AllocError, Global};
use std::marker::Model;

/// What comes after an option.
#[derive(Drop)]
pub enum Given {
    /// No equals sign.
    Bare,
    /// An equals sign, and no value that belongs to it.
    Sign,
    /// An equals sign and a value.
    Value(Text),
}

/// An option, what comes after it, and its line.
#[derive(Drop)]
pub struct Setting {
    pub option: Opt,
    pub given: Given,
    pub line: u32,
}

/// Settings, in order. To a contract it is the list of them.
#[derive(Drop)]
pub struct SettingList {
    settings: Vec<Setting>,
}

/// The settings of a text, and the refusal that comes after them, where there is one.
#[derive(Drop)]
pub struct Cut {
    pub settings: SettingList,
    pub refusal: Option<ConfFault>,
}

impl Model for SettingList {
    ghost use Rattle.std.specs.Prelude.{List};
    ghost use Rattle.conf_settings.specs.declared.setting.Setting.{Setting};

    ghost Value = { List Setting };

    ghost view = { λ list. list.settings.items };
}

impl SettingList {
    ghost use Rattle.std.specs.Prelude.{◌≡◌, [], ◌∷◌, ◌++◌, OnOk, OnErr};

    /// No settings.
    pub(crate) fn new(alloc: Global) -> SettingList
        ensures { result ≡ [] }
    {
        SettingList {
            settings: Vec::new(alloc),
        }
    }

    /// Adds one at the end.
    pub(crate) fn push(&mut self, setting: Setting) -> Result<(), AllocError>
        ensures { OnOk result (self.new ≡ self.old ++ setting ∷ []) }
    {
        self.settings.push(setting)?;
        Ok(())
    }

    /// The settings.
    pub fn items(&self) -> &[Setting]
        ensures { result.now ≡ self.now }
    {
        self.settings.as_slice()
    }
}
