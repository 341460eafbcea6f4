// Runs over a file.

use crate::kernel::Kernel;
use crate::telling::SHOWN;
use crate::trial::Trial;
use nb_lines::Told;
use nb_units::NoMemory;

impl Trial {
    /// `file CALL HEX`: the next runs go over a file, of which the device has these bytes, and of whose syncs and advices this one fails.
    pub fn file(&mut self, told: &mut Told, words: &[&str]) -> Result<(), NoMemory> {
        let [call, text] = words else {
            return told.unclear();
        };
        let bytes = nb_lines::spelled(self.alloc(), *text);
        self.kernel = Some(Kernel::over(&bytes, nb_lines::number(*call)));
        Ok(())
    }

    /// `restart`: the machine is started again, with what the device has.
    pub fn restart(&mut self) {
        if let Some(kernel) = self.kernel.take() {
            self.kernel = Some(Kernel::over(kernel.kept(), 0));
        }
    }

    /// `interrupt`: each third read or write of the file is interrupted from now on.
    pub fn interrupt(&mut self) {
        if let Some(kernel) = self.kernel.take() {
            self.kernel = Some(kernel.interrupting());
        }
    }

    /// `memory`: the next runs go over disks in memory again.
    pub fn memory(&mut self) {
        self.kernel = None;
    }

    /// `device`: how many syncs and advices of the file were asked for, and what the device has.
    pub fn device(&self, told: &mut Told) -> Result<(), NoMemory> {
        match &self.kernel {
            Some(kernel) => told
                .show("", &kernel.asked())
                .bytes_up_to(" asked; ", kernel.kept(), SHOWN)
                .done(),
            None => told.unclear(),
        }
    }
}
