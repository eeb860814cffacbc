//! What the expressions of a rule read at a match.

ghost use Rattle.std.specs.Prelude.{◌≡◌, option_copied};
ghost use Rattle.std.specs.List.{find};
ghost use Rattle.hs_expr.specs.Lists.{same_text};
ghost use Rattle.hs_types.specs.Arguments.{value_argument};

use crate::Env;
use hs_expr::Value;
use hs_types::{Arg, Args, Host, NamedArg, ObjectNo, PatternNode, Rule, image_of};

/// What the expressions of a kernel or of a copy read: slots of the images of nodes, with their
/// values in the host's graph, and arguments of the rule. A copy's nodes and images are numbered
/// after those of the kernel, its base; a kernel's base is empty.
#[derive(Drop)]
pub struct MatchEnv<'a, H: Host> {
    pub host: &'a H,
    pub rule: &'a Rule,
    pub args: &'a Args,
    pub base: &'a [PatternNode],
    pub base_images: &'a [ObjectNo],
    pub nodes: &'a [PatternNode],
    pub images: &'a [ObjectNo],
}

impl<'a, H: Host> Env for MatchEnv<'a, H> {
    ghost use Rattle.std.specs.Prelude.{◌++◌};
    ghost use Rattle.hs_types.specs.Conditions.{env_of};

    ghost reads = { λ env. env_of (H.graph env.host.now) env.rule.now env.args.now
        (env.base.now ++ env.nodes.now) (env.base_images.now ++ env.images.now) };

    fn slot(&self, node: u16, attribute: u16) -> Option<&Value> {
        let image = image_of(self.base, self.nodes, self.base_images, self.images, node);
        self.host.slot(image, attribute)
    }

    fn param(&self, number: u16) -> Option<&Value> {
        let param = self.rule.params.get(usize::from(number))?;
        value_argument(self.args, param.name.as_str())
    }
}

/// The value that is given by this name.
fn value_argument<'a>(args: &'a Args, name: &str) -> Option<&'a Value>
    ensures { option_copied result ≡ value_argument args.now name.now }
{
    match &given_named(args, name)?.arg {
        Arg::Value(value) => Some(value),
        Arg::Object(_) => None,
    }
}

/// What is given by this name.
fn given_named<'a>(args: &'a Args, name: &str) -> Option<&'a NamedArg>
    ensures { option_copied result ≡ find (λ given. same_text given.name name.now) args.now.list }
{
    args.list.iter().find(|given| given.name.as_str() == name)
}
