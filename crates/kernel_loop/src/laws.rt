// Laws of kernels: each is a function that states one, does nothing and takes nothing.
ghost use Rattle.kernel_loop.specs.Kernels.{ReasonsAreTold};

/// Where frames lack, the image has more pages than there are frames, and both numbers are told.
pub fn reasons_are_told()
    ensures { ReasonsAreTold }
{}
