//! The environment that a builder finds.
ghost use Rattle.std.specs.Prelude.{◌≡◌, ℕ, List, OnOk, Some, map, option_map, true};
ghost use Rattle.std.specs.Process.{clears_env, command_var};
ghost use Rattle.std.specs.Process.{SameDir, SameOtherVars, SameProgramAndArgs};
ghost use Rattle.process_build.specs.Setups.{entry_of_var, value_of};

use crate::process::setup::SetupVar;
use std::alloc::AllocError;
use std::process::Command;

/// Gives a command these variables as its whole environment, set in their order.
pub fn set_environment(command: &mut Command, settings: &[SetupVar<'_>]) -> Result<(), AllocError>
    ensures vars { OnOk result ((key : List ℕ) → command_var command.new key
        ≡ option_map Some (value_of key (map entry_of_var settings.now))) }
    ensures clears { OnOk result (clears_env command.new ≡ true) }
    ensures call { OnOk result (SameProgramAndArgs command.old command.new) }
    ensures dir { OnOk result (SameDir command.old command.new) }
{
    command.env_clear();
    for setting in settings {
        set(command, setting)?;
    }
    Ok(())
}

// Sets a variable of a command's environment.
fn set(command: &mut Command, setting: &SetupVar<'_>) -> Result<(), AllocError>
    ensures set { OnOk result (command_var command.new (entry_of_var setting.now).key
        ≡ Some (Some (entry_of_var setting.now).value)) }
    ensures others { OnOk result
        (SameOtherVars command.old command.new (entry_of_var setting.now).key) }
    ensures clears { OnOk result (clears_env command.new ≡ clears_env command.old) }
    ensures call { OnOk result (SameProgramAndArgs command.old command.new) }
    ensures dir { OnOk result (SameDir command.old command.new) }
{
    command.env(setting.key.as_str(), setting.value.as_str())?;
    Ok(())
}
