//! Contexts for results and options.
ghost use Rattle.std.specs.Prelude.{◌≡◌, Option, None, Ok, IfOk, IfErr, IfSome, IfNone, IsErrAnd};
ghost use Rattle.std.specs.Option.{ForNone};
ghost use Rattle.std.specs.Result.{ForErr};
ghost use Rattle.wic_error.specs.Context.{IsInContext, IsContextOf};
ghost use Rattle.wic_error.specs.Error.{Error as Chain};

use crate::error::Error;
use crate::kind::Kind;
use std::alloc::Global;

/// What may have no value, and then gets a context.
pub trait Context<T, K: Kind + Drop>: Sized {
    ghost value: { Self → Option T };

    ghost cause: { Self → Option (Chain K) };

    /// The value; or if there is none, the context on the error that stands in its place, or the error of this one
    /// context if there is no error. A value is returned as `Ok` and never refused.
    fn context(self, alloc: Global, context: K) -> Result<T, Error<K>>
        ensures kept { IfSome (value self) (λ x. result ≡ Ok x) }
        ensures in_context { IfNone (value self)
            (IsErrAnd result (IsInContext (cause self) context)) };

    /// The same with the context that `f` returns. It is called only if there is no value, also if the error is out of
    /// memory, and needs to be callable only then.
    fn with_context<F: FnOnce() -> K + Drop>(self, alloc: Global, f: F) -> Result<T, Error<K>>
        requires { ForNone (value self) (F.pre f) }
        ensures kept { IfSome (value self) (λ x. result ≡ Ok x) }
        ensures in_context { IfNone (value self)
            ((context : K) × F.post f context
            × IsErrAnd result (IsInContext (cause self) context)) };
}

/// The context goes in front of the error's links.
impl<T: Drop, K: Kind + Drop> Context<T, K> for Result<T, Error<K>> {
    ghost use Rattle.std.specs.Prelude.{IfSome, IfNone};
    ghost use Rattle.std.specs.Result.{result_ok, result_err};

    ghost value = { result_ok };

    ghost cause = { result_err };

    fn context(self, alloc: Global, context: K) -> Result<T, Error<K>> {
        self.map_err(|error| error.context(alloc, context))
    }

    fn with_context<F: FnOnce() -> K + Drop>(self, alloc: Global, f: F) -> Result<T, Error<K>> {
        self.map_err(|error| error.context(alloc, f()))
    }
}

/// `None` gives the error of this one context.
impl<T: Drop, K: Kind + Drop> Context<T, K> for Option<T> {
    ghost use Rattle.std.specs.Prelude.{None};

    ghost value = { λ o. o };

    ghost cause = { λ _. None };

    fn context(self, alloc: Global, context: K) -> Result<T, Error<K>> {
        self.ok_or_else(|| Error::new(alloc, context))
    }

    fn with_context<F: FnOnce() -> K + Drop>(self, alloc: Global, f: F) -> Result<T, Error<K>> {
        self.ok_or_else(|| Error::new(alloc, f()))
    }
}

/// The value, which is never refused; or an error whose root is this link, in this context.
///
/// It stands for `Context::context` of a `Result` with an error of another type.
pub fn result_context<T: Drop, K: Kind + Drop>(
    alloc: Global,
    r: Result<T, K>,
    context: K,
) -> Result<T, Error<K>>
    ensures kept { IfOk r (λ value. result ≡ Ok value) }
    ensures in_context { IfErr r (λ root. IsErrAnd result (IsContextOf root context)) }
{
    r.map_err(|root| in_context(alloc, root, context))
}

/// The same with the context that `f` returns, which is called only if there is no value, and needs to be callable
/// only then.
///
/// It stands for `Context::with_context` of a `Result` with an error of another type.
pub fn result_with_context<T: Drop, K: Kind + Drop, F: FnOnce() -> K + Drop>(
    alloc: Global,
    r: Result<T, K>,
    f: F,
) -> Result<T, Error<K>>
    requires { ForErr r (λ _. F.pre f) }
    ensures kept { IfOk r (λ value. result ≡ Ok value) }
    ensures in_context { IfErr r (λ root. (context : K) × F.post f context
        × IsErrAnd result (IsContextOf root context)) }
{
    r.map_err(|root| in_context(alloc, root, f()))
}

/// An error whose root is this link, in this context.
fn in_context<K: Kind + Drop>(alloc: Global, root: K, context: K) -> Error<K>
    ensures links { IsContextOf root context result }
{
    Error::new(alloc, root).context(alloc, context)
}

/// `Ok` of a value, with the error type of this crate. It stands for the function `Ok` of the Rust crate.
pub fn ok<T, K: Kind>(value: T) -> Result<T, Error<K>>
    ensures value { result ≡ Ok value }
{
    Ok(value)
}
