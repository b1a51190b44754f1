//! Keeps a first error and returns it again. (This project's own.)

ghost use Rattle.std.specs.Prelude.{◌≡◌, Some, None, IfOk, IfErr};
ghost use Rattle.std.specs.Option.{option_or};
ghost use Rattle.std.specs.Result.{result_err};

use std::marker::Model;

/// The first error of a series of calls, if one failed. Each call of the series begins with `check`, and goes on only if there is
/// no error.
#[derive(Drop)]
pub struct Latch<E: Copy> {
    error: Option<E>,
}

impl<E: Copy> Model for Latch<E> {
    ghost use Rattle.std.specs.Prelude.{Option};

    ghost Value = { Option E };

    ghost view = { λ l. l.error };
}

impl<E: Copy> Latch<E> {
    /// A latch without an error.
    pub fn new() -> Latch<E>
        ensures { result ≡ None }
    {
        Latch { error: None }
    }

    /// Fails with the stored error, if there is one.
    pub fn check(&self) -> Result<(), E>
        ensures none { IfOk result (λ _. self.now ≡ None) }
        ensures again { IfErr result (λ error. self.now ≡ Some error) }
    {
        match self.error {
            Some(error) => Err(error),
            None => Ok(()),
        }
    }

    /// Returns the outcome unchanged, and stores its error unless one is stored already.
    pub fn keep<T>(&mut self, outcome: Result<T, E>) -> Result<T, E>
        ensures same { result ≡ outcome }
        ensures kept { self.new ≡ option_or self.old (result_err outcome) }
    {
        // by reference, so that the outcome can still be returned whole
        if let Err(error) = &outcome
            && self.error.is_none()
        {
            self.error = Some(*error);
        }
        outcome
    }
}
