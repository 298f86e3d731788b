// The rescue numbers of modules are numbers of their type: seen by looking at them.

ghost use Rattle.std.specs.List.{All};
ghost use Rattle.p3l_load.specs.Written.{HasRescueInRange};

use p3l_skel::ModuleInfo;

// Looks at a module.
fn look_at(info: &ModuleInfo)
    ensures { HasRescueInRange info.now }
{
    match info.rescue {
        Some(_number) => {}
        None => {}
    }
}

/// Looks at each module: its rescue number, if it has one, is a number of its type.
pub fn have_rescues(modules: &[ModuleInfo])
    ensures { All HasRescueInRange modules.now }
{
    for info in modules {
        look_at(info);
    }
}
